// The table: its types, its limits and the empty table.
#![tactic(auto)]

ghost use Rattle.std.specs.Prelude.{◌≡◌};
ghost use Rattle.table.specs.Clean.{free_rule, empty_table};
ghost use Rattle.table.specs.Labels.{absent_label};

pub mod sets; // sets.rt: sets, numbers and slots of atoms, kept in arrays
pub mod slots; // slots.rt: what stands in a slot, read and written
pub mod arrays; // arrays.rt: what the slots keep of each atom, in arrays
pub mod turns; // turns.rt: rounds over the slots, upwards or downwards

// The number of an atom, and the number of a slot. One passed where the other is meant does not build:
// "error[mismatched-types]: expected `Atom`, found `Slot`".
#[repr(C)]
#[derive(Clone, Copy)]
pub struct Atom(pub u16);

#[repr(C)]
#[derive(Clone, Copy)]
pub struct Slot(pub u16);

// The rule of a slot: free (state 0), or with one rule, unmuted (1) or muted (2). The entries are the positive list,
// then the negative list. The state is a number and no enum, since a table may hold any (`rule_at` of specs/Words).
#[derive(Clone, Copy)]
pub struct Rule {
    pub state: u16,
    pub head: Atom,
    pub positives: u16,
    pub negatives: u16,
    pub entries: [Atom; Table::ENTRIES],
}

// The label of an atom: absent, out, or in, with depth and supporting slot.
#[derive(Clone, Copy)]
pub enum Label {
    Absent,
    Out,
    In(u16, Slot),
}

// A table is one array of numbers, WIDTH to a slot, so that whatever bytes come in are a table, which may be sound or
// not, and so that the array can be lent. A slot's numbers: state, head, how many positives, how many negatives, the
// entries, and what is kept: the depth of the head if the slot supports it, and the place of the entry that spoils the
// rule, counted from 1 over both lists; each else 0.
#[repr(C)]
#[derive(Clone, Copy)]
pub struct Table {
    pub words: [u16; Table::WORDS],
}

// The first entry that spoils a rule: its place in the positive or the negative list as the slot keeps it, from 0, and
// its atom.
#[derive(Clone, Copy)]
pub enum Spoiler {
    Positive(u8, Atom),
    Negative(u8, Atom),
}

impl Rule {
    // A slot that holds no rule.
    pub fn free() -> Rule
        ensures { result ≡ free_rule }
    {
        Rule {
            state: 0,
            head: Atom(0),
            positives: 0,
            negatives: 0,
            entries: [Atom(0); Table::ENTRIES],
        }
    }
}

impl Label {
    // The label of an atom that does not occur.
    pub fn absent() -> Label
        ensures { result ≡ absent_label }
    {
        Label::Absent
    }
}

impl Table {
    // The limits: slots, atoms, and entries in both lists of a rule together.
    pub const SLOTS: usize = 256;

    pub const ATOMS: usize = 256;

    pub const ENTRIES: usize = 8;

    // Numbers to a slot, and to a table.
    pub const WIDTH: usize = 14;

    pub const WORDS: usize = Table::WIDTH * Table::SLOTS;

    // The empty table, in which every slot is free and every atom absent: all its numbers are 0.
    pub fn empty() -> Table
        ensures { result ≡ empty_table }
    {
        Table {
            words: [0; Table::WORDS],
        }
    }
}
