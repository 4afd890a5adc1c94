// The language of a sheet's line: reading a line's bytes as a command.
#![tactic(auto)]

use places::Place;

pub mod read; // read.rt: what a line is

// The commands of a sheet. The lists of an addition or a replacement stand beside it (`Parsed`).
#[derive(Clone, Copy)]
pub enum Command {
    Add(u32),
    Remove(u32),
    Replace(u32, u32), // slot, head
    Why(u32),
    Labels,
}

// What a line is (specification 6.4 to 6.8): blank, over-long (question 14), without the form (question 13), or a
// command.
#[derive(Clone, Copy)]
pub enum Reading {
    Blank,
    LineTooLong,
    NotACommand,
    Command(Command),
}

// A line that was read. The positives of a rule stand first among the entries, then its negatives; all that follow
// are 0. A reading without a rule has none. The place is in the line that was read, as far on as the reader came.
#[derive(Clone, Copy)]
pub struct Parsed {
    pub place: Place,
    pub reading: Reading,
    pub positives: usize,
    pub negatives: usize,
    pub entries: [u32; Parsed::TOKENS],
}

impl Parsed {
    // The most bytes of a line, its newline not counted.
    pub const LINE: usize = 120;

    // The most tokens of a line, which are parted by spaces: room for every entry.
    pub const TOKENS: usize = Parsed::LINE / 2;
}
