// The commands of a sheet, a function for each: the table after it, and the bytes that it prints, written at a place of
// a lent buffer. A sheet keeps its own table, which is sound from the start and stays so: question 15 is not asked.
#![tactic(auto)]

ghost use Rattle.std.specs.Prelude.{◌+◌, ◌≤◌, length};
ghost use Rattle.table.specs.Sound.{Sound};
ghost use Rattle.sheet_lines.specs.Commands as sheet;
ghost use Rattle.sheet_lines.specs.Readings.{TOKENS, command_of, positives_in, negatives_in};
ghost use Rattle.sheet_label_lines.specs.LabelLines.{LABELS_ROOM};
ghost use Rattle.sheet_commands.specs.Commands.{Obeys, Tells};

use add_remove::{add_to_sound, remove_from_sound};
use reading::labels_of;
use reason_call::reason_of_sound;
use replacing::replace_in_sound;
use sheet_answers::{tell_add, tell_change, tell_reason};
use sheet_label_lines::write_labels;
use sheet_lines::{Command, Parsed};
use table::Table;

// The table after a command, and the place in the buffer behind what it prints.
#[derive(Clone, Copy)]
pub struct Obeyed {
    pub table: Table,
    pub next: usize,
}

// `A`: the addition, whose positives stand first among the entries, then its negatives.
fn add_rule(table: Table, head: u32, parsed: Parsed, out: &mut [u8], at: usize) -> Obeyed
    requires sound { Sound table }
    requires negatives_bound { (parsed.positives + parsed.negatives ≤ TOKENS) × (at + LABELS_ROOM ≤ length out.old) }
    ensures obeys { Obeys table parsed.place.line (sheet.add head (positives_in parsed) (negatives_in parsed))
        out.old at out.new result }
    ensures sound_2 { Sound result.table }
{
    let place = parsed.place;
    let entries = parsed.entries;
    let both = &entries[..];
    let middle = parsed.positives;
    let end = middle + parsed.negatives;
    let mut added = table;
    let answer = add_to_sound(&mut added, head, &both[..middle], &both[middle..end]);
    let next = tell_add(answer, place.line, out, at);
    Obeyed { table: added, next }
}

// `R`: the removal.
fn remove_slot(table: Table, slot: u32, line: u32, out: &mut [u8], at: usize) -> Obeyed
    requires { Sound table × (at + LABELS_ROOM ≤ length out.old) }
    ensures obeys { Obeys table line (sheet.remove slot) out.old at out.new result }
    ensures sound { Sound result.table }
{
    let mut rest = table;
    let answer = remove_from_sound(&mut rest, slot);
    let next = tell_change(answer, line, b"removed", slot, out, at);
    Obeyed { table: rest, next }
}

// `P`: the replacement. Its lists stand as those of an addition do.
fn replace_rule(
    table: Table,
    slot: u32,
    head: u32,
    parsed: Parsed,
    out: &mut [u8],
    at: usize,
) -> Obeyed
    requires sound { Sound table }
    requires negatives_bound { (parsed.positives + parsed.negatives ≤ TOKENS) × (at + LABELS_ROOM ≤ length out.old) }
    ensures obeys { Obeys table parsed.place.line
        (sheet.replace slot head (positives_in parsed) (negatives_in parsed))
        out.old at out.new result }
    ensures sound_2 { Sound result.table }
{
    let place = parsed.place;
    let entries = parsed.entries;
    let both = &entries[..];
    let cut = parsed.positives;
    let end = cut + parsed.negatives;
    let mut replaced = table;
    let answer = replace_in_sound(&mut replaced, slot, head, &both[..cut], &both[cut..end]);
    let next = tell_change(answer, place.line, b"replaced", slot, out, at);
    Obeyed {
        table: replaced,
        next,
    }
}

// `W`: the reason of an atom. It has at most one slot for each atom.
fn explain(table: Table, atom: u32, line: u32, out: &mut [u8], at: usize) -> usize
    requires { Sound table × (at + LABELS_ROOM ≤ length out.old) }
    ensures { Tells table line (sheet.why atom) out.old at out.new result }
{
    let mut slots: [u32; Table::ATOMS] = [0; Table::ATOMS];
    let answer = reason_of_sound(&table.words, atom, &mut slots);
    tell_reason(answer, line, &slots, out, at)
}

// `L`: the label of each atom that occurs.
fn list_labels(table: Table, line: u32, out: &mut [u8], at: usize) -> usize
    requires { Sound table × (at + LABELS_ROOM ≤ length out.old) }
    ensures { Tells table line sheet.labels out.old at out.new result }
{
    let labels = labels_of(&table.words);
    write_labels(out, at, labels)
}

// Obeys the command that a line was read as. What only asks leaves the table as it is.
pub fn obey(table: Table, command: Command, parsed: Parsed, out: &mut [u8], at: usize) -> Obeyed
    requires sound { Sound table }
    requires negatives_bound { (parsed.positives + parsed.negatives ≤ TOKENS) × (at + LABELS_ROOM ≤ length out.old) }
    ensures obeys { Obeys table parsed.place.line (command_of command (positives_in parsed) (negatives_in parsed))
        out.old at out.new result }
    ensures sound_2 { Sound result.table }
{
    let place = parsed.place;
    match command {
        Command::Add(head) => add_rule(table, head, parsed, out, at),
        Command::Remove(slot) => remove_slot(table, slot, place.line, out, at),
        Command::Replace(slot, head) => replace_rule(table, slot, head, parsed, out, at),
        Command::Why(atom) => {
            let next = explain(table, atom, place.line, out, at);
            Obeyed { table, next }
        }
        Command::Labels => {
            let next = list_labels(table, place.line, out, at);
            Obeyed { table, next }
        }
    }
}
