// The calls on a table: what they mean (specs/), what they tell of a rule, and the questions that a call on an atom, or
// on a slot, asks first. Arguments are bare numbers; no call asks anything of its caller.
#![tactic(auto)]

ghost use Rattle.table.specs.Words.{table_of};
ghost use Rattle.table.specs.Sound.{Sound};
ghost use Rattle.calls.specs.Asking.{AskAtomEnds, AskSlotEnds};

use questions::head_fits;
use refusals::Refusal;
use sound::sound;
use table::slots::rule_in;
use table::{Atom, Slot, Table};

// What the rule in a slot is: valid, muted, or spoilt by an entry: its place in the positive or the negative list, which
// ascend, from 0, and the atom. A muted rule is told as muted, and no more of it.
#[derive(Clone, Copy)]
pub enum RuleStatus {
    Valid,
    Muted,
    Positive(u8, Atom),
    Negative(u8, Atom),
}

// Asks 10 of a table that is sound.
pub fn atom_asked(table: &[u16; Table::WORDS], atom: u32) -> Result<Atom, Refusal>
    requires { Sound (table_of table.now) }
    ensures { AskAtomEnds (table_of table.now) atom result }
{
    if !head_fits(atom) {
        return Err(Refusal::AtomTooLarge);
    }
    let a = atom as u16;
    Ok(Atom(a))
}

// Asks 15, then 10. Label, justifications, consequences and repercussions start with it.
pub fn ask_atom(table: &[u16; Table::WORDS], atom: u32) -> Result<Atom, Refusal>
    ensures { AskAtomEnds (table_of table.now) atom result }
{
    if !sound(table) {
        return Err(Refusal::TableUnsound); // 15 comes before 10
    }
    atom_asked(table, atom)
}

// Asks 8, then 9 of a table that is sound.
pub fn slot_asked(table: &[u16; Table::WORDS], slot: u32) -> Result<Slot, Refusal>
    requires { Sound (table_of table.now) }
    ensures { AskSlotEnds (table_of table.now) slot result }
{
    if slot as usize >= Table::SLOTS {
        return Err(Refusal::SlotTooLarge);
    }
    let s = slot as u16;
    let held = rule_in(table, Slot(s));
    if held.state == 0 {
        return Err(Refusal::SlotFree);
    }
    Ok(Slot(s))
}

// Asks 15, 8, 9. Spoiler and the rule in a slot start with it.
pub fn ask_slot(table: &[u16; Table::WORDS], slot: u32) -> Result<Slot, Refusal>
    ensures { AskSlotEnds (table_of table.now) slot result }
{
    if !sound(table) {
        return Err(Refusal::TableUnsound); // 15 comes before 8 and 9
    }
    slot_asked(table, slot)
}
