// Slots by themselves: each well formed, and no two rules equal, muted or not.
#![tactic(auto)]

ghost use Rattle.std.specs.Prelude.{◌≡◌, true, ◌↔◌, ℕ, ◌<◌, get_or, set};
ghost use Rattle.theory.specs.Limits.{document};
ghost use Rattle.table.specs.Sets.{number};
ghost use Rattle.table.specs.Rules.{slot_of, rule_of, program_of, past_rule};
ghost use Rattle.table.specs.Words.{rules_of};
ghost use Rattle.table.specs.Clean.{WellFormed};
ghost use Rattle.well_formed.specs.Slots.{Single};
ghost use Rattle.well_formed.specs.Keys.{modulus, key, slot_key};

use questions::clean::well_formed;
use rule::{equal, negative_end};
use table::slots::rule_at;
use table::{Atom, Rule, Table};

// Keys, by which rules are linked: see specs/Keys.antt.
const KEYS: usize = Table::SLOTS;

const MODULUS: usize = KEYS * KEYS;

const FACTOR: usize = 8121;

// Is every slot one that a sound table can have?
pub fn slots_well_formed(table: &[u16; Table::WORDS]) -> bool
    ensures { (result ≡ true)
        ↔ ((s : ℕ) → s < document.slots → WellFormed (get_or (rules_of table.now) s past_rule)) }
{
    (0..Table::SLOTS).all(|i| well_formed(rule_at(table, i)))
}

// The number of an atom.
fn wide(a: Atom) -> usize
    ensures { (result ≡ a.0) × (result < modulus) }
{
    a.0 as usize
}

// A number that equal rules share: rules are linked by it.
fn key(rule: Rule) -> usize
    ensures { result ≡ key (rule_of rule) }
{
    let n = negative_end(rule);
    let mut k = wide(rule.head);
    for j in 0..n {
        let a = rule.entries[j];
        let x = wide(a);
        k = (FACTOR * k + x) % MODULUS;
    }
    FACTOR * k % MODULUS / KEYS
}

// The key by which the slot is linked: that of its rule. A free slot has one past the last, by which nothing is linked.
fn slot_key(rule: Rule) -> usize
    ensures { result ≡ slot_key (slot_of rule) }
{
    if rule.state == 0 {
        return KEYS;
    }
    key(rule)
}

// Where to start looking for an equal rule: 1 more than the last slot so far of this key; 0 if there is none.
fn last_of(k: usize, last: &[u16; KEYS]) -> u16
    ensures { result ≡ number last.now k }
{
    let s = &last[..];
    if k < s.len() { s[k] } else { 0 }
}

// The slot before `next` is now the last of this key; past the last key nothing is kept.
fn note(k: usize, last: &mut [u16; KEYS], next: u16)
    ensures { last.new ≡ set last.old k next }
{
    let s = &mut last[..];
    if k < s.len() {
        s[k] = next;
    }
}

// Are no two rules equal? Rules of one key are linked: `last` has 1 more than the last slot of a key so far,
// `before` for a slot 1 more than the one before it that has the same key, and 0 says that there is none.
pub fn no_two_equal(table: &[u16; Table::WORDS]) -> bool
    ensures { (result ≡ true) ↔ Single (program_of (rules_of table.now)) }
{
    let mut last: [u16; KEYS] = [0; KEYS];
    let mut before: [u16; Table::SLOTS] = [0; Table::SLOTS];
    for i in 0..Table::SLOTS {
        let rule = rule_at(table, i);
        let k = slot_key(rule);
        let start = last_of(k, &last);
        let mut link = start as usize;
        while link > 0 {
            let other = rule_at(table, link - 1);
            if equal(rule, other) {
                return false;
            }
            link = before[link - 1] as usize;
        }
        before[i] = start;
        note(k, &mut last, (i + 1) as u16);
    }
    true
}
