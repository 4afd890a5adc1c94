// The sets of justifications and of consequences of an atom: of all rules held, muted or not.
#![tactic(auto)]

ghost use Rattle.std.specs.Prelude.{◌≡◌, eqb};
ghost use Rattle.theory.specs.Lists.{any};
ghost use Rattle.theory.specs.Rules.{passes, entries, Bounded};
ghost use Rattle.theory.specs.Explanations.{Justification, Consequence};
ghost use Rattle.theory.specs.Limits.{document};
ghost use Rattle.table.specs.Rules.{slot_of, program_of};
ghost use Rattle.table.specs.Words.{rules_of};
ghost use Rattle.table.specs.Sets.{Flags};
ghost use Rattle.relations.specs.Marks.{mark_if};

use rule::negative_end;
use table::sets::mark;
use table::slots::rule_at;
use table::{Atom, Rule, Table};

// Does the slot hold a rule with this head?
pub fn has_head(rule: Rule, a: Atom) -> bool
    ensures { result ≡ passes (λ q. eqb q.head a.0) (slot_of rule) }
{
    if rule.state == 0 {
        return false;
    }
    rule.head.0 == a.0
}

// The slots of the rules with this head.
pub fn justifying(table: &[u16; Table::WORDS], a: Atom) -> [bool; Table::SLOTS]
    ensures { Flags result (Justification (program_of (rules_of table.now)) a.0) }
{
    let mut flags: [bool; Table::SLOTS] = [false; Table::SLOTS];
    for i in 0..Table::SLOTS {
        let rule = rule_at(table, i);
        flags[i] = has_head(rule, a);
    }
    flags
}

// Does the slot hold a rule with this entry?
pub fn has_entry(rule: Rule, a: Atom) -> bool
    ensures { result ≡ passes (λ q. any (eqb a.0) (entries q)) (slot_of rule) }
{
    if rule.state == 0 {
        return false;
    }
    let n = negative_end(rule);
    rule.entries[..n].iter().any(|x| a.0 == x.0)
}

// If the slot holds a rule with this entry, its head comes into the set.
fn mark_head(rule: Rule, a: Atom, flags: &mut [bool; Table::ATOMS])
    ensures { flags.new ≡ mark_if (passes (λ q. any (eqb a.0) (entries q)) (slot_of rule))
        flags.old rule.head.0 }
{
    if !has_entry(rule, a) {
        return;
    }
    let head = rule.head;
    mark(flags, head);
}

// The heads of the rules with this entry.
pub fn following(table: &[u16; Table::WORDS], a: Atom) -> [bool; Table::ATOMS]
    requires { Bounded (program_of (rules_of table.now)) document.atoms }
    ensures { Flags result (Consequence (program_of (rules_of table.now)) a.0) }
{
    let mut flags: [bool; Table::ATOMS] = [false; Table::ATOMS];
    for i in 0..Table::SLOTS {
        let rule = rule_at(table, i);
        mark_head(rule, a, &mut flags);
    }
    flags
}
