// The labels of all atoms that occur, in one call.
#![tactic(auto)]

ghost use Rattle.std.specs.Prelude.{◌≡◌, cond, [], ◌∷◌, ◌*◌, ◌<◌};
ghost use Rattle.theory.specs.Limits.{document};
ghost use Rattle.table.specs.Sets.{member, number};
ghost use Rattle.table.specs.Words.{table_of};
ghost use Rattle.table.specs.Sound.{Sound};
ghost use Rattle.written_lists.specs.Written.{Appends};
ghost use Rattle.label_list.specs.Listed.{up_to, LabelsEnd};
ghost use Rattle.label_list.specs.Found.{numbers_of, found_numbers};

use occurring::occurring;
use refusals::Refusal;
use sound::sound;
use table::arrays::arrays_of;
use table::sets::{has, number_of};
use table::{Atom, Table};
use written_lists::{count_marked, write_at};

// Numbers to an atom.
const FOUR: usize = 4;

// The state that is told of an atom that occurs: 2 if it is in, else 1. A number: the call's form is four numbers.
fn state_of(is_in: bool) -> u32
    ensures { result ≡ cond is_in 2 1 }
{
    if is_in { 2 } else { 1 }
}

// Writes four numbers from place n on, as far as the buffer has places. Answers the next place.
fn write_four(buffer: &mut [u32], n: usize, a: u32, b: u32, c: u32, d: u32) -> usize
    requires { n < 4 * document.atoms }
    ensures { Appends (a ∷ b ∷ c ∷ d ∷ []) n result buffer.old buffer.new }
{
    write_at(buffer, n, a);
    write_at(buffer, n + 1, b);
    write_at(buffer, n + 2, c);
    write_at(buffer, n + 3, d);
    n + FOUR
}

// Writes what was found of the atom from place n on, if it occurs. Answers the next place.
fn write_atom(
    there: &[bool; Table::ATOMS],
    flags: &[bool; Table::ATOMS],
    depths: &[u16; Table::ATOMS],
    slots: &[u16; Table::ATOMS],
    a: Atom,
    buffer: &mut [u32],
    n: usize,
) -> usize
    requires { n < 4 * document.atoms }
    ensures { Appends
        (numbers_of (member there.now a.0) (member flags.now a.0) a.0
        (number depths.now a.0) (number slots.now a.0))
        n result buffer.old buffer.new }
{
    if !has(there, a) {
        return n;
    }
    let is_in = has(flags, a);
    let state = state_of(is_in);
    let depth = number_of(depths, a);
    let slot = number_of(slots, a);
    write_four(buffer, n, a.0 as u32, state, depth as u32, slot as u32)
}

// Writes what was found of all atoms that occur, ascending, as far as the buffer has places.
fn write_atoms(
    there: &[bool; Table::ATOMS],
    flags: &[bool; Table::ATOMS],
    depths: &[u16; Table::ATOMS],
    slots: &[u16; Table::ATOMS],
    buffer: &mut [u32],
) -> usize
    ensures { Appends
        (up_to (found_numbers (member there.now) (member flags.now) (number depths.now)
        (number slots.now)) document.atoms)
        0 result buffer.old buffer.new }
{
    let mut next: usize = 0;
    for i in 0..Table::ATOMS {
        let a = Atom(i as u16);
        next = write_atom(there, flags, depths, slots, a, buffer, next);
    }
    next
}

// The labels of all atoms that occur, of a table that is sound: 11. The atoms are counted before a number is written.
pub fn labels_of_sound(table: &[u16; Table::WORDS], buffer: &mut [u32]) -> Result<usize, Refusal>
    requires { Sound (table_of table.now) }
    ensures { LabelsEnd (table_of table.now) buffer.old result buffer.new }
{
    let kept = arrays_of(table);
    let flags = kept.flags;
    let depths = kept.depths;
    let slots = kept.slots;
    let there = occurring(table);
    let n = FOUR * count_marked(&there);
    if buffer.len() < n {
        return Err(Refusal::BufferTooShort(n));
    }
    write_atoms(&there, &flags, &depths, &slots, buffer);
    Ok(n)
}

// The labels of all atoms that occur, ascending: 15, 11. Of each, four numbers: the atom, its state (1 out, 2 in), its
// depth and its supporting slot (0 and 0 if it is out). They are written from the start of the buffer, how many numbers
// is answered, and later entries stay.
pub fn labels(table: &[u16; Table::WORDS], buffer: &mut [u32]) -> Result<usize, Refusal>
    ensures { LabelsEnd (table_of table.now) buffer.old result buffer.new }
{
    if !sound(table) {
        return Err(Refusal::TableUnsound);
    }
    labels_of_sound(table, buffer)
}
