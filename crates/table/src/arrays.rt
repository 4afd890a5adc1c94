// What the slots keep of each atom, in arrays that can be lent.
ghost use Rattle.std.specs.Prelude.{true, set};
ghost use Rattle.theory.specs.Slots.{keeps?};
ghost use Rattle.table.specs.Rules.{slot_of};
ghost use Rattle.table.specs.Arrays.{ArraysOf, Noted};

use super::sets::{mark, set_number, set_slot};
use super::slots::{depth_at, rule_at};
use super::{Rule, Slot, Table};

// Of each atom: is it in, its depth and its supporting slot (both 0 where it is not in)?
#[derive(Clone, Copy)]
pub struct LabelArrays {
    pub flags: [bool; Table::ATOMS],
    pub depths: [u16; Table::ATOMS],
    pub slots: [u16; Table::ATOMS],
}

// If the slot holds a rule and keeps a depth, its head is in, with this depth and this slot.
fn note(
    rule: Rule,
    depth: u16,
    slot: Slot,
    flags: &mut [bool; Table::ATOMS],
    depths: &mut [u16; Table::ATOMS],
    slots: &mut [u16; Table::ATOMS],
)
    ensures { Noted (slot_of rule) rule.head.0 depth slot.0
        flags.old depths.old slots.old
        flags.new depths.new slots.new }
{
    if rule.state == 0 {
        return;
    }
    if depth == 0 {
        return;
    }
    let head = rule.head;
    mark(flags, head);
    set_number(depths, head, depth);
    set_slot(slots, head, slot);
}

// What the slots keep of each atom: the lowest slot of a head that keeps a depth counts, so the walk goes down.
pub fn arrays_of(table: &[u16; Table::WORDS]) -> LabelArrays
    ensures { ArraysOf table.now result }
{
    let mut flags: [bool; Table::ATOMS] = [false; Table::ATOMS];
    let mut depths: [u16; Table::ATOMS] = [0; Table::ATOMS];
    let mut slots: [u16; Table::ATOMS] = [0; Table::ATOMS];
    for left in (0..Table::SLOTS).rev() {
        let rule = rule_at(table, left);
        let depth = depth_at(table, left);
        let n = left as u16;
        note(rule, depth, Slot(n), &mut flags, &mut depths, &mut slots);
    }
    LabelArrays {
        flags,
        depths,
        slots,
    }
}
