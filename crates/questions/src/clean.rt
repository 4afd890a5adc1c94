// Is a slot one that a sound table can have?
ghost use Rattle.std.specs.Prelude.{◌≡◌, true, ◌↔◌, ℕ, ◌+◌, ◌≤◌, ◌<◌, ltb, get_or};
ghost use Rattle.std.proofs.Math.Seq.{slice};
ghost use Rattle.theory.specs.Lists.{every, Sorted};
ghost use Rattle.theory.specs.Limits.{document};
ghost use Rattle.table.specs.Rules.{numbers, no_atom};
ghost use Rattle.table.specs.Clean.{CleanRule, WellFormed};
ghost use Rattle.questions.specs.Sums.{sum_to};

use super::head_fits;
use table::{Rule, Table};

// The sum of the first entries.
fn sum_to(rule: Rule, to: usize) -> u32
    requires { to ≤ document.entries }
    ensures { result ≡ sum_to rule.entries to }
{
    let mut sum: u32 = 0;
    for a in &rule.entries[..to] {
        sum += a.0 as u32;
    }
    sum
}

// Is every entry from a place on as in the empty table? All are 0 exactly if they add nothing to the sum of those
// before. The sum of all is taken at once, which is faster than a test of each.
fn empty_from(rule: Rule, from: usize) -> bool
    ensures { (result ≡ true) ↔ ((i : ℕ) → from ≤ i → get_or rule.entries i no_atom ≡ no_atom) }
{
    if from >= Table::ENTRIES {
        return true;
    }
    sum_to(rule, from) == sum_to(rule, Table::ENTRIES)
}

// Does all of the slot that holds nothing stand as in the empty table?
pub fn clean_rule(rule: Rule) -> bool
    ensures { (result ≡ true) ↔ CleanRule rule }
{
    let n = rule.positives as usize + rule.negatives as usize;
    if n > Table::ENTRIES {
        return false;
    }
    if !empty_from(rule, n) {
        return false;
    }
    if rule.state != 0 {
        return rule.state <= 2;
    }
    if n != 0 {
        return false;
    }
    rule.head.0 == 0
}

// Do the entries from `from` to below `to` ascend, and is each below the number of atoms? An entry is tested as a head
// is. (By place: `from` may be past `to`, where there is no such slice.)
fn ascends(rule: Rule, from: usize, to: usize) -> bool
    requires { to ≤ document.entries }
    ensures { (result ≡ true) ↔ (Sorted (λ x y. x < y) (numbers (slice from to rule.entries))
        × (every (λ x. ltb x document.atoms) (numbers (slice from to rule.entries)) ≡ true)) }
{
    let mut least: u32 = 0;
    for j in from..to {
        let a = rule.entries[j];
        let x = a.0 as u32;
        if x < least {
            return false;
        }
        if !head_fits(x) {
            return false;
        }
        least = x + 1;
    }
    true
}

// Is the slot clean and, if it holds a rule, does that rule pass questions 1 to 4, and does each of its lists ascend?
// The rule of a clean slot passes question 2, and lists that ascend pass question 4.
pub fn well_formed(rule: Rule) -> bool
    ensures { (result ≡ true) ↔ WellFormed rule }
{
    if !clean_rule(rule) {
        return false;
    }
    if rule.state == 0 {
        return true;
    }
    let p = rule.positives as usize;
    let n = p + rule.negatives as usize;
    let head = rule.head.0 as u32;
    if !head_fits(head) {
        return false;
    }
    if !ascends(rule, 0, p) {
        return false;
    }
    ascends(rule, p, n)
}
