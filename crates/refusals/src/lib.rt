// What a refusal is: a case for each question that a call can answer no, and its number.
#![tactic(auto)]

ghost use Rattle.std.specs.Prelude.{◌≡◌};
ghost use Rattle.refusals.specs.Refusals.{number_of};

// A refusal: a case for each question that a call can answer no. Its number is that of specification 3.2
// (specs/Refusals).
#[derive(Clone, Copy)]
pub enum Refusal {
    HeadTooLarge,
    TooManyEntries,
    EntryTooLarge,
    RepeatedEntry,
    SameRule,
    TableFull,
    NegativeCycle,
    SlotTooLarge,
    SlotFree,
    AtomTooLarge,
    BufferTooShort(usize),
    AtomNotIn,
    TableUnsound,
    WrongLength,
    WrongChecksum,
    WrongBlock,
    WrongRecord,
    FileNotListed,
    WrongFileCount,
    MarkUnchanged,
}

// The number of a refusal.
pub fn refusal_number(f: Refusal) -> u32
    ensures { result ≡ number_of f }
{
    match f {
        Refusal::HeadTooLarge => 1,
        Refusal::TooManyEntries => 2,
        Refusal::EntryTooLarge => 3,
        Refusal::RepeatedEntry => 4,
        Refusal::SameRule => 5,
        Refusal::TableFull => 6,
        Refusal::NegativeCycle => 7,
        Refusal::SlotTooLarge => 8,
        Refusal::SlotFree => 9,
        Refusal::AtomTooLarge => 10,
        Refusal::BufferTooShort(needed) => 11,
        Refusal::AtomNotIn => 12,
        Refusal::TableUnsound => 15,
        Refusal::WrongLength => 16,
        Refusal::WrongChecksum => 17,
        Refusal::WrongBlock => 18,
        Refusal::WrongRecord => 19,
        Refusal::FileNotListed => 20,
        Refusal::WrongFileCount => 21,
        Refusal::MarkUnchanged => 22,
    }
}
