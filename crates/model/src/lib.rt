// The in atoms of a table's rules, found by rounds over the slots, lowest stratum first.
#![tactic(auto)]

ghost use Rattle.std.specs.Prelude.{◌≡◌};
ghost use Rattle.theory.specs.Rules.{passes};
ghost use Rattle.theory.specs.Models.{valid};
ghost use Rattle.table.specs.Rules.{active_in, active_of, book_of};
ghost use Rattle.table.specs.Words.{rules_of};
ghost use Rattle.table.specs.Sets.{member, number};
ghost use Rattle.model.specs.Model.{Stratified, Searched};
ghost use Rattle.model.specs.Rounds.{sought, waits, Ready, Filling, HighestOf};

use rule::valid;
use table::sets::{has, mark, number_of};
use table::slots::rule_at;
use table::{Atom, Rule, Table};

// What is found: the in atoms, and how many rounds were made in each stratum (layer), from the lowest on; 0 past the
// highest. `order` is a hint, of which nothing is promised: how many slots added their heads, then these slots, in the
// order in which they did.
#[derive(Clone, Copy)]
pub struct Search {
    pub found: [bool; Table::ATOMS],
    pub rounds: [u16; Search::STRATA],
    pub order: [u16; Search::STRATA],
}

impl Search {
    // A stratum for each number of negative steps that a path can have: no more than there are rules.
    pub const STRATA: usize = Table::SLOTS + 1;
}

// Is the atom of stratum k and not in yet?
fn sought(a: Atom, strata: &[u16; Table::ATOMS], k: u16, found: &[bool; Table::ATOMS]) -> bool
    ensures { result ≡ sought (number strata.now) k (member found.now) a.0 }
{
    if number_of(strata, a) != k {
        return false;
    }
    !has(found, a)
}

// Does a slot of this state and head hold an unmuted rule whose head is sought?
fn waits(
    state: u16,
    head: Atom,
    strata: &[u16; Table::ATOMS],
    k: u16,
    found: &[bool; Table::ATOMS],
) -> bool
    ensures { result ≡ waits (number strata.now) k (member found.now) state head.0 }
{
    if state != 1 {
        return false;
    }
    sought(head, strata, k, found)
}

// Does the slot hold an unmuted rule that is valid in the set?
fn holds_valid(rule: Rule, flags: &[bool; Table::ATOMS]) -> bool
    ensures { result ≡ passes (valid (member flags.now)) (active_in rule) }
{
    if rule.state != 1 {
        return false;
    }
    valid(rule, flags)
}

// A number is put into the hint, if there is room.
fn put(order: &mut [u16; Search::STRATA], place: u16, v: u16) {
    let i = place as usize;
    let s = &mut order[..];
    if i < s.len() {
        s[i] = v;
    }
}

// The slot comes last in the hint.
fn note(order: &mut [u16; Search::STRATA], slot: usize) {
    if slot >= Table::SLOTS {
        return;
    }
    let v = slot as u16;
    let s = &order[..];
    let n = s[0].wrapping_add(1);
    put(order, n, v);
    put(order, 0, n);
}

// The rounds of stratum k, up to the first that adds none. Answers how many were made.
fn fill_stratum(
    table: &[u16; Table::WORDS],
    strata: &[u16; Table::ATOMS],
    k: u16,
    found: &mut [bool; Table::ATOMS],
    order: &mut [u16; Search::STRATA],
) -> u16
    requires { Ready (book_of (rules_of table.now)) (number strata.now) k found.old }
    ensures { Filling (active_of (rules_of table.now)) (number strata.now) k
        found.old found.new result }
{
    let mut rounds: u16 = 0;
    // from here on no slot waits: visits there would add none
    let mut end = Table::SLOTS;
    loop {
        let mut adds = false;
        let mut last: usize = 0;
        for slot in 0..end {
            let rule = rule_at(table, slot);
            if !waits(rule.state, rule.head, strata, k, found) {
                continue;
            }
            last = slot + 1;
            if !holds_valid(rule, found) {
                continue;
            }
            mark(found, rule.head);
            note(order, slot);
            adds = true;
        }
        end = last;
        rounds += 1;
        if !adds {
            return rounds;
        }
    }
}

// The highest number that occurs among the strata.
fn highest(strata: &[u16; Table::ATOMS]) -> u16
    ensures { HighestOf (number strata.now) result }
{
    let mut top: u16 = 0;
    for &n in strata {
        top = top.max(n);
    }
    top
}

// The admissible model of the unmuted rules, given the strata of the atoms, and the rounds of each stratum.
pub fn in_atoms(table: &[u16; Table::WORDS], strata: &[u16; Table::ATOMS]) -> Search
    requires { Stratified (book_of (rules_of table.now)) (number strata.now) }
    ensures { Searched (book_of (rules_of table.now)) result }
{
    let top = highest(strata);
    let mut found: [bool; Table::ATOMS] = [false; Table::ATOMS];
    let mut rounds: [u16; Search::STRATA] = [0; Search::STRATA];
    let mut order: [u16; Search::STRATA] = [0; Search::STRATA];
    for k in 0..=top {
        let n = fill_stratum(table, strata, k, &mut found, &mut order);
        rounds[k as usize] = n;
    }
    Search {
        found,
        rounds,
        order,
    }
}
