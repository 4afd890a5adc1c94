// The lines that tell what a call answered, written at a place of a lent buffer. No table goes through these functions:
// it is some kilobytes.
#![tactic(auto)]

ghost use Rattle.std.specs.Prelude.{◌+◌, ◌≤◌, length};
ghost use Rattle.sheet_label_lines.specs.LabelLines.{LABELS_ROOM};
ghost use Rattle.sheet_meaning.specs.Lines.{tell_add, tell_change, tell_reason};
ghost use Rattle.fields.specs.Written.{Wrote};
ghost use Rattle.sheet_answers.specs.Answers.{Counts};

use refusals::{Refusal, refusal_number};
use sheet_printing::{write_named, write_refusal, write_why};
use table::Slot;

// Of an addition on this line: `slot` and the slot that it took, or its refusal.
pub fn tell_add(answer: Result<Slot, Refusal>, line: u32, out: &mut [u8], at: usize) -> usize
    requires { at + LABELS_ROOM ≤ length out.old }
    ensures { Wrote (tell_add line answer) out.old at out.new result }
{
    match answer {
        Ok(slot) => write_named(out, at, b"slot", slot.0 as u32),
        Err(f) => write_refusal(out, at, line, refusal_number(f)),
    }
}

// Of a removal or a replacement: its word and the slot, or its refusal.
pub fn tell_change(
    answer: Result<(), Refusal>,
    line: u32,
    word: &[u8],
    slot: u32,
    out: &mut [u8],
    at: usize,
) -> usize
    requires { (length word.now ≤ 8) × (at + LABELS_ROOM ≤ length out.old) }
    ensures { Wrote (tell_change word.now line slot answer) out.old at out.new result }
{
    match answer {
        Ok(()) => write_named(out, at, word, slot),
        Err(f) => write_refusal(out, at, line, refusal_number(f)), // names the line, not the slot
    }
}

// Of a reason: `why` and its slots, of which so many stand in the list that was lent; or its refusal.
pub fn tell_reason(
    answer: Result<usize, Refusal>,
    line: u32,
    slots: &[u32],
    out: &mut [u8],
    at: usize,
) -> usize
    requires { Counts answer slots.now × (at + LABELS_ROOM ≤ length out.old) }
    ensures { Wrote (tell_reason line answer slots.now) out.old at out.new result }
{
    match answer {
        Ok(n) => write_why(out, at, &slots[..n]),
        Err(f) => write_refusal(out, at, line, refusal_number(f)),
    }
}
