// The rules that a file records with their marks, read from its bytes.
#![tactic(auto)]

ghost use Rattle.std.specs.Prelude.{◌≡◌, true, map, ◌↔◌, ◌+◌, ◌-◌, ◌*◌, ◌/◌, ◌%◌, ◌≤◌, leb, length, drop};
ghost use Rattle.file_blocks.specs.Words.{word_at, words_in};
ghost use Rattle.file_blocks.specs.Places.{place_numbered, PLACE_ENTRIES};
ghost use Rattle.file_blocks.specs.Places.{MARK};
ghost use Rattle.file_blocks.specs.Files as format;
ghost use Rattle.file_blocks.specs.Questions.{blocks, block_count, places_of, whole, numbered};
ghost use Rattle.table.specs.Rules.{state_of};
ghost use Rattle.file_loading.specs.Reading.{atom, slot_from, Stands, ReadFrom};

use file_blocks::{BLOCK, HEADER, MARK, PLACE, PLACES, word_at};
use questions::clean::well_formed;
use std::array::from_fn;
use table::slots::put_rule;
use table::{Atom, Rule, Slot, Table};

// How many records a file has whose blocks are numbered: 22 in every block but the last.
fn record_count(bytes: &[u8]) -> usize
    requires { (1 ≤ block_count bytes.now) × (block_count bytes.now ≤ format.BLOCKS) }
    ensures { result ≡ format.PLACES * (block_count bytes.now - 1)
        + word_at bytes.now (format.BLOCK * (block_count bytes.now - 1) + 4) }
{
    let others = bytes.len() / BLOCK - 1;
    let last = word_at(bytes, BLOCK * others + 4);
    PLACES * others + last as usize
}

// Where record k of a file begins.
fn record_start(k: usize) -> usize
    requires { k ≤ format.PLACES * format.BLOCKS }
    ensures { result ≡ k / format.PLACES * format.BLOCK + format.HEADER + k % format.PLACES * format.PLACE }
{
    k / PLACES * BLOCK + HEADER + k % PLACES * PLACE
}

// The entries of the record that begins at an offset.
fn entries_at(bytes: &[u8], at: usize) -> [Atom; Table::ENTRIES]
    requires { at + format.PLACE ≤ length bytes.now }
    ensures { result ≡ map atom (words_in PLACE_ENTRIES (drop (at + 6) bytes.now)) }
{
    from_fn(|j| Atom(word_at(bytes, at + 6 + 2 * j)))
}

// The state of the slot by the byte of the positive count: with the mark in it the rule is muted.
fn state_of(count: u8) -> u16
    ensures { result ≡ state_of (leb MARK count) }
{
    if count < MARK { 1 } else { 2 }
}

// A byte as a number of a slot.
fn wide(byte: u8) -> u16
    ensures { result ≡ byte }
{
    byte as u16
}

// The slot with the rule and the mark of the record that begins at an offset.
fn rule_at(bytes: &[u8], at: usize) -> Rule
    requires { at + format.PLACE ≤ length bytes.now }
    ensures { result ≡ slot_from (place_numbered (drop at bytes.now)) }
{
    let head = word_at(bytes, at + 2);
    let count = bytes[at + 4];
    let positives = wide(count % MARK);
    let second = bytes[at + 5];
    let negatives = wide(second);
    let state = state_of(count);
    let entries = entries_at(bytes, at);
    Rule {
        state,
        head: Atom(head),
        positives,
        negatives,
        entries,
    }
}

// Can the record stand where the slots below `least` are behind: is its slot none of them and below the number of slots,
// and is its rule one that a sound table can hold?
fn stands(slot: Slot, least: usize, rule: Rule) -> bool
    ensures { (result ≡ true) ↔ Stands slot.0 least rule }
{
    let s = slot.0 as usize;
    if s < least {
        return false;
    }
    if s >= Table::SLOTS {
        return false;
    }
    well_formed(rule)
}

// A table's numbers with the rules of all records and their marks, each in its slot, of a file whose length and numbers
// are right, if the slots ascend and each record is one that a sound table can hold. Its slots keep nothing.
pub fn read_records(bytes: &[u8]) -> Option<Table>
    requires { (whole bytes.now ≡ true) × (numbered (block_count bytes.now) 0 (blocks bytes.now) ≡ true) }
    ensures { ReadFrom (places_of (blocks bytes.now)) result }
{
    let count = record_count(bytes);
    let empty = Table::empty();
    let mut words = empty.words;
    let mut least: usize = 0;
    for k in 0..count {
        let at = record_start(k);
        let slot = Slot(word_at(bytes, at));
        let rule = rule_at(bytes, at);
        if !stands(slot, least, rule) {
            return None;
        }
        put_rule(&mut words, slot, rule);
        least = slot.0 as usize + 1;
    }
    Some(Table { words })
}
