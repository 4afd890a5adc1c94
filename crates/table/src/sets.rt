// Sets of atoms, and numbers and slots of atoms, kept in arrays that can be lent. Atoms and slots are taken apart in
// leaves such as these (docs/DECISIONS.md lists them all). An atom past the end is in no set, has the number 0, and is
// not written.
ghost use Rattle.std.specs.Prelude.{◌≡◌, true, max, set};
ghost use Rattle.table.specs.Sets.{member, number};

use super::{Atom, Slot, Table};

// Is the atom in the set?
pub fn has(flags: &[bool; Table::ATOMS], a: Atom) -> bool
    ensures { result ≡ member flags.now a.0 }
{
    let s = &flags[..];
    let i = a.0 as usize;
    if i < s.len() { s[i] } else { false }
}

// The atom comes into the set.
pub fn mark(flags: &mut [bool; Table::ATOMS], a: Atom)
    ensures { flags.new ≡ set flags.old a.0 true }
{
    let s = &mut flags[..];
    let i = a.0 as usize;
    if i < s.len() {
        s[i] = true;
    }
}

// The number kept for the atom.
pub fn number_of(numbers: &[u16; Table::ATOMS], a: Atom) -> u16
    ensures { result ≡ number numbers.now a.0 }
{
    let s = &numbers[..];
    let i = a.0 as usize;
    if i < s.len() { s[i] } else { 0 }
}

// The number kept for the atom becomes `v`.
pub fn set_number(numbers: &mut [u16; Table::ATOMS], a: Atom, v: u16)
    ensures { numbers.new ≡ set numbers.old a.0 v }
{
    let s = &mut numbers[..];
    let i = a.0 as usize;
    if i < s.len() {
        s[i] = v;
    }
}

// The slot kept for the atom.
pub fn slot_of(slots: &[u16; Table::ATOMS], a: Atom) -> Slot
    ensures { result.0 ≡ number slots.now a.0 }
{
    Slot(number_of(slots, a))
}

// The slot kept for the atom becomes `s`.
pub fn set_slot(slots: &mut [u16; Table::ATOMS], a: Atom, s: Slot)
    ensures { slots.new ≡ set slots.old a.0 s.0 }
{
    set_number(slots, a, s.0);
}

// The greater of two numbers.
pub fn larger(x: usize, y: usize) -> usize
    ensures { result ≡ max x y }
{
    x.max(y)
}
