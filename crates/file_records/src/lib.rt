// The slots of a table that hold rules, and the records of these rules and their marks, written into a lent buffer.
#![tactic(auto)]

ghost use Rattle.std.specs.Prelude.{◌≡◌, min, ◌+◌, ◌*◌, ◌≤◌, leb, length};
ghost use Rattle.theory.specs.Limits.{document};
ghost use Rattle.table.specs.Rules.{numbers, book_of};
ghost use Rattle.table.specs.Words.{rules_of};
ghost use Rattle.table.specs.Clean.{CleanRule};
ghost use Rattle.fields.specs.Written.{Wrote};
ghost use Rattle.file_blocks.specs.Words.{words};
ghost use Rattle.file_blocks.specs.Places.{count_byte};
ghost use Rattle.file_blocks.specs.Files as format;
ghost use Rattle.file_records.specs.Held.{HeldIn, CleanSlots};
ghost use Rattle.file_records.specs.Bytes.{record_bytes, records_bytes};

use file_blocks::{MARK, PLACE, write_word};
use table::slots::rule_at;
use table::{Atom, Rule, Slot, Table};

// The slots that hold rules, muted or not, ascending: how many, and which.
#[derive(Clone, Copy)]
pub struct HeldSlots {
    pub count: usize,
    pub slots: [Slot; Table::SLOTS],
}

// 1 for a slot that holds a rule, 0 for a free one.
fn one_if_held(state: u16) -> usize
    ensures { result ≡ min state 1 }
{
    if state == 0 { 0 } else { 1 }
}

// The slots that hold rules. Each slot is noted behind the others; a free one is written over.
pub fn held_slots(table: &[u16; Table::WORDS]) -> HeldSlots
    ensures { HeldIn (book_of (rules_of table.now)) result }
{
    let mut slots: [Slot; Table::SLOTS] = [Slot(0); Table::SLOTS];
    let mut count: usize = 0;
    for i in 0..Table::SLOTS {
        let rule = rule_at(table, i);
        let number = i as u16;
        slots[count] = Slot(number);
        count += one_if_held(rule.state);
    }
    HeldSlots { count, slots }
}

// Writes the entries of a rule. In a clean slot the unused ones are zero.
fn write_entries(out: &mut [u8], at: usize, entries: [Atom; Table::ENTRIES])
    requires { at + 2 * document.entries ≤ length out.old }
    ensures { Wrote (words (numbers entries))
        out.old at out.new (at + 2 * document.entries) }
{
    for (j, a) in entries.iter().enumerate() {
        write_word(out, at + 2 * j, a.0);
    }
}

// The byte of the positive count: a muted rule has the mark in it.
fn count_byte(state: u16, positives: u16) -> u8
    requires { positives ≤ document.entries }
    ensures { result ≡ count_byte (leb 2 state) positives }
{
    let count = positives as u8;
    if state < 2 { count } else { MARK + count }
}

// Writes the record of a rule in a slot: slot, head, counts with the mark, entries.
fn write_record(out: &mut [u8], at: usize, slot: Slot, rule: Rule)
    requires clean_rule { CleanRule rule }
    requires place_in_bounds { at + format.PLACE ≤ length out.old }
    ensures { Wrote (record_bytes slot.0 rule)
        out.old at out.new (at + format.PLACE) }
{
    write_word(out, at, slot.0);
    write_word(out, at + 2, rule.head.0);
    out[at + 4] = count_byte(rule.state, rule.positives);
    out[at + 5] = rule.negatives as u8;
    let entries = rule.entries;
    write_entries(out, at + 6, entries);
}

// Writes so many records of the file, from one on.
pub fn write_records(
    out: &mut [u8],
    at: usize,
    table: &[u16; Table::WORDS],
    held: HeldSlots,
    from: usize,
    count: usize,
)
    requires clean_slots { CleanSlots (rules_of table.now) }
    requires held_in { HeldIn (book_of (rules_of table.now)) held }
    requires count_bound { (from + count ≤ held.count) × (at + format.PLACE * count ≤ length out.old) }
    ensures { Wrote (records_bytes (rules_of table.now) from count)
        out.old at out.new (at + format.PLACE * count) }
{
    for (k, &slot) in held.slots[from..from + count].iter().enumerate() {
        let rule = rule_at(table, slot.0 as usize);
        write_record(out, at + PLACE * k, slot, rule);
    }
}
