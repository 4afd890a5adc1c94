// Is there no loop through a negation? Numbers of the atoms that no dependency goes against show it, whatever they were
// guessed by; only where none are at hand is it found out by the strata.
#![tactic(auto)]

ghost use Rattle.std.specs.Prelude.{◌≡◌, true, ◌↔◌};
ghost use Rattle.theory.specs.Rules.{Bounded};
ghost use Rattle.theory.specs.Dependencies.{NegativeCycle};
ghost use Rattle.theory.specs.Limits.{document};
ghost use Rattle.table.specs.Rules.{program_of, slot_of};
ghost use Rattle.table.specs.Words.{rules_of};
ghost use Rattle.table.specs.Sets.{number};
ghost use Rattle.loops.specs.Descent.{AtomsBelow, Descending, DescendsAt};

use order::order;
use strata::{needed, number_at, strata};
use table::slots::rule_at;
use table::{Rule, Table};

// Does no dependency of the slot's rule go against the numbers: is no entry's above the head's, and each negative one's
// below it?
fn rule_descends(rule: Rule, numbers: &[u16; Table::ATOMS]) -> bool
    requires { AtomsBelow document.atoms (slot_of rule) }
    ensures { (result ≡ true) ↔ DescendsAt (number numbers.now) (slot_of rule) }
{
    if rule.state == 0 {
        return true;
    }
    let n = needed(rule, numbers);
    let head = number_at(numbers, rule.head);
    n <= head as usize
}

// Does no dependency of the table go against the numbers?
fn descends(table: &[u16; Table::WORDS], numbers: &[u16; Table::ATOMS]) -> bool
    requires { Bounded (program_of (rules_of table.now)) document.atoms }
    ensures { (result ≡ true) ↔ Descending (program_of (rules_of table.now))
        (number numbers.now) }
{
    (0..Table::SLOTS).all(|i| rule_descends(rule_at(table, i), numbers))
}

// Has no rule a negative entry? Then no dependency goes against the numbers 0. (Promised is only that yes is right.)
fn without_negation(table: &[u16; Table::WORDS]) -> bool
    ensures { result ≡ true → Descending (program_of (rules_of table.now)) (λ a. 0) }
{
    (0..Table::SLOTS).all(|i| rule_at(table, i).negatives == 0)
}

// Is there no loop through a negation? There is none without a negation; else a guessed order nearly always shows it,
// and where it does not, the strata decide.
pub fn acyclic(table: &[u16; Table::WORDS]) -> bool
    requires { Bounded (program_of (rules_of table.now)) document.atoms }
    ensures { (result ≡ true) ↔ (NegativeCycle (program_of (rules_of table.now)) → ⊥) }
{
    if without_negation(table) {
        return true;
    }
    let mut numbers: [u16; Table::ATOMS] = [0; Table::ATOMS];
    order(table, &mut numbers);
    if descends(table, &numbers) {
        return true;
    }
    strata(table).is_some()
}
