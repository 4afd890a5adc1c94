// The strata of a table's rules, muted or not: for each atom the most negative steps on a path of dependencies from it.
#![tactic(auto)]

ghost use Rattle.std.specs.Prelude.{◌≡◌, ◌≤◌, ◌<◌, length};
ghost use Rattle.std.proofs.Math.Seq.{slice};
ghost use Rattle.theory.specs.Lists.{greatest};
ghost use Rattle.theory.specs.Rules.{Bounded};
ghost use Rattle.theory.specs.Limits.{document};
ghost use Rattle.table.specs.Sets.{number};
ghost use Rattle.table.specs.Rules.{numbers, slot_of, program_of};
ghost use Rattle.table.specs.Words.{rules_of};
ghost use Rattle.strata.specs.Answer.{StrataOf};
ghost use Rattle.strata.specs.Needed.{plus, needed, AllBelow, EntriesBelow, Raised, Attained, Guided};

use order::by_order::slots_in_order;
use rule::{negative_end, positive_end};
use table::sets::set_number;
use table::slots::{rule_at, rule_in};
use table::turns::slot_at;
use table::{Atom, Rule, Slot, Table};

// Rounds that are made before an order is guessed: in most tables they are more than enough.
const GUESS: usize = 12;

// The number kept for an atom of the table. Reading it takes most of the time of a round, so that it is not tested
// once more whether the array has a place for the atom.
pub fn number_at(kept: &[u16; Table::ATOMS], a: Atom) -> u16
    requires { a.0 < document.atoms }
    ensures { result ≡ number kept.now a.0 }
{
    let s = &kept[..];
    let i = a.0 as usize;
    s[i]
}

// The greatest number among the entries from `from` to below `to`, each `step` more than is kept for it; 0 if none.
fn greatest(rule: Rule, from: usize, to: usize, kept: &[u16; Table::ATOMS], step: u16) -> usize
    requires { (to ≤ document.entries) × AllBelow document.atoms (numbers (slice from to rule.entries)) }
    ensures { result ≡ greatest (plus step (number kept.now)) (numbers (slice from to rule.entries)) }
{
    let mut most: usize = 0;
    for j in from..to {
        let a = rule.entries[j];
        let n = number_at(kept, a);
        most = most.max(step as usize + n as usize);
    }
    most
}

// The least number that the slot's rule lets its head have: no entry above it, each negative entry below it.
pub fn needed(rule: Rule, kept: &[u16; Table::ATOMS]) -> usize
    requires { EntriesBelow document.atoms (slot_of rule) }
    ensures { result ≡ needed (number kept.now) (slot_of rule) }
{
    if rule.state == 0 {
        return 0;
    }
    let p = positive_end(rule);
    let n = negative_end(rule);
    let positive = greatest(rule, 0, p, kept, 0);
    let negative = greatest(rule, p, n, kept, 1);
    positive.max(negative)
}

// The atom's number becomes `n` if it is lower: was it? None is lower than 0, which is all that a free slot needs of
// its head: only that may be no atom of the table.
pub fn raise(kept: &mut [u16; Table::ATOMS], a: Atom, n: u16) -> bool
    requires { 0 < n → a.0 < document.atoms }
    ensures { Raised kept.old a.0 n kept.new result }
{
    if n == 0 {
        return false;
    }
    if n <= number_at(kept, a) {
        return false;
    }
    set_number(kept, a, n);
    true
}

// The slots named raise the numbers of their heads, in the order in which they are named: any will do.
fn raise_in_order(
    table: &[u16; Table::WORDS],
    by: &[u16; Table::SLOTS],
    of: &mut [u16; Table::ATOMS],
)
    requires { Bounded (program_of (rules_of table.now)) document.atoms
        × Attained (program_of (rules_of table.now)) (number of.old) × (length of.old ≡ document.atoms) }
    ensures { Guided (program_of (rules_of table.now)) of.old of.new }
{
    for &s in by {
        let rule = rule_in(table, Slot(s));
        let n = needed(rule, of);
        if n > Table::SLOTS {
            return;
        }
        raise(of, rule.head, n as u16);
    }
}

// Before round GUESS the slots come once in a guessed order, in which numbers settle that rounds up and down the slots
// would settle one by one.
fn guide(table: &[u16; Table::WORDS], round: usize, of: &mut [u16; Table::ATOMS])
    requires { Bounded (program_of (rules_of table.now)) document.atoms
        × Attained (program_of (rules_of table.now)) (number of.old) × (length of.old ≡ document.atoms) }
    ensures { Guided (program_of (rules_of table.now)) of.old of.new }
{
    if round != GUESS {
        return;
    }
    let mut by: [u16; Table::SLOTS] = [0; Table::SLOTS];
    slots_in_order(table, &mut by);
    raise_in_order(table, &by, of);
}

// Each atom's stratum, or none where there is a negative cycle: rounds over the slots, each of which raises heads to
// what their rules need, up to the first that raises none.
// Only a negative cycle lets a number pass SLOTS, or a round that SLOTS others came before still raise one.
// Every eighth round walks downwards: a chain against the order of the slots settles in it.
pub fn strata(table: &[u16; Table::WORDS]) -> Option<[u16; Table::ATOMS]>
    requires { Bounded (program_of (rules_of table.now)) document.atoms }
    ensures { StrataOf (program_of (rules_of table.now)) result }
{
    let mut of: [u16; Table::ATOMS] = [0; Table::ATOMS];
    for round in 0..=Table::SLOTS {
        guide(table, round, &mut of);
        let down = round % 8 == 7;
        let mut raised = false;
        for i in 0..Table::SLOTS {
            let s = slot_at(down, i);
            let rule = rule_at(table, s);
            let n = needed(rule, &of);
            if n > Table::SLOTS {
                return None;
            }
            let higher = raise(&mut of, rule.head, n as u16);
            raised = higher | raised;
        }
        if !raised {
            return Some(of);
        }
    }
    None
}
