// One rule: where its lists end, whether it is valid, what spoils it, whether two are equal.
#![tactic(auto)]

ghost use Rattle.std.specs.Prelude.{◌≡◌, true, ◌↔◌, ◌+◌, ◌≤◌, min};
ghost use Rattle.theory.specs.Models.{valid};
ghost use Rattle.theory.specs.Labels.{spoiler};
ghost use Rattle.theory.specs.Limits.{document};
ghost use Rattle.table.specs.Sets.{member, standing};
ghost use Rattle.table.specs.Rules.{rule_of, spoiler_of};
ghost use Rattle.rule.specs.First.{FirstAt};

use table::sets::has;
use table::{Rule, Spoiler, Table};

// Where the positive list ends among the entries.
pub fn positive_end(rule: Rule) -> usize
    ensures { result ≡ min rule.positives document.entries }
{
    (rule.positives as usize).min(Table::ENTRIES)
}

// Where the negative list ends among the entries. It starts where the positive list ends.
pub fn negative_end(rule: Rule) -> usize
    ensures { result ≡ min (rule.positives + rule.negatives) document.entries }
{
    (rule.positives as usize + rule.negatives as usize).min(Table::ENTRIES)
}

// Where among the entries, from `from` to below `to`, stands the first that is in the set (`wanted` true) or out of it
// (`wanted` false), if one is?
fn first_standing(
    rule: Rule,
    from: usize,
    to: usize,
    flags: &[bool; Table::ATOMS],
    wanted: bool,
) -> Option<usize>
    requires { to ≤ document.entries }
    ensures { FirstAt (standing wanted (member flags.now)) rule.entries from to result }
{
    for j in from..to {
        let a = rule.entries[j];
        if has(flags, a) == wanted {
            return Some(j);
        }
    }
    None
}

// The first entry that keeps the rule from being valid in the set: the positive list is read first.
pub fn spoiler(rule: Rule, flags: &[bool; Table::ATOMS]) -> Option<Spoiler>
    ensures { spoiler_of result ≡ spoiler (member flags.now) (rule_of rule) }
{
    let p = positive_end(rule);
    let n = negative_end(rule);
    if let Some(i) = first_standing(rule, 0, p, flags, false) {
        let a = rule.entries[i];
        return Some(Spoiler::Positive(i as u8, a));
    }
    let j = first_standing(rule, p, n, flags, true)?;
    let a = rule.entries[j];
    Some(Spoiler::Negative((j - p) as u8, a))
}

// Is the rule valid in the set: every positive entry in it, no negative entry? So does no entry spoil it?
pub fn valid(rule: Rule, flags: &[bool; Table::ATOMS]) -> bool
    ensures { result ≡ valid (member flags.now) (rule_of rule) }
{
    spoiler(rule, flags).is_none()
}

// Are the two rules equal, entry for entry? Of rules with ascending lists this asks whether they are the same (the law
// `ascending-same`).
pub fn equal(a: Rule, b: Rule) -> bool
    ensures { (result ≡ true) ↔ (rule_of a ≡ rule_of b) }
{
    if a.head.0 != b.head.0 {
        return false;
    }
    let p = positive_end(a);
    let q = positive_end(b);
    if p != q {
        return false;
    }
    let n = negative_end(a);
    let m = negative_end(b);
    if n != m {
        return false;
    }
    for j in 0..n {
        let x = a.entries[j];
        let y = b.entries[j];
        if x.0 != y.0 {
            return false;
        }
    }
    true
}
