// The lines that are printed of a command that was obeyed, and of a refusal: words and fields parted by one space, each
// line with its newline. Each is written at a place of a lent buffer that has room for the longest line of its kind;
// else nothing is written.
#![tactic(auto)]

ghost use Rattle.std.specs.Prelude.{◌+◌, ◌*◌, ◌≤◌, length};
ghost use Rattle.fields.specs.Fields.{fields};
ghost use Rattle.fields.specs.Written.{Wrote, WroteIn};
ghost use Rattle.sheet_printing.specs.Printed.{named, refusal_line, why_line};

use fields::{bytes_left, write_bytes, write_field};

// A word and a number, as a line.
pub fn write_named(out: &mut [u8], at: usize, word: &[u8], n: u32) -> usize
    ensures { WroteIn (12 + length word.now) (named word.now n)
        out.old at out.new result }
{
    if bytes_left(out.len(), at) < 12 + word.len() {
        return at;
    }
    let a = write_bytes(out, at, word);
    let b = write_field(out, a, n);
    write_bytes(out, b, b"\n")
}

// `line`, line number, `refused`, number.
pub fn write_refusal(out: &mut [u8], at: usize, number: u32, refusal: u32) -> usize
    ensures { WroteIn 40 (refusal_line number refusal) out.old at out.new result }
{
    if bytes_left(out.len(), at) < 40 {
        return at;
    }
    let a = write_bytes(out, at, b"line");
    let b = write_field(out, a, number);
    let c = write_bytes(out, b, b" refused");
    let d = write_field(out, c, refusal);
    write_bytes(out, d, b"\n")
}

// A space and a number for each of the list.
fn write_fields(out: &mut [u8], at: usize, numbers: &[u32]) -> usize
    requires { at + 11 * length numbers.now ≤ length out.old }
    ensures { Wrote (fields numbers.now) out.old at out.new result }
{
    let mut next = at;
    for &n in numbers {
        next = write_field(out, next, n);
    }
    next
}

// `why` and the slots. How many there is room for is told by a quotient: a product could wrap.
pub fn write_why(out: &mut [u8], at: usize, slots: &[u32]) -> usize
    ensures { WroteIn (4 + 11 * length slots.now) (why_line slots.now)
        out.old at out.new result }
{
    let left = bytes_left(out.len(), at);
    if left < 4 {
        return at;
    }
    if (left - 4) / 11 < slots.len() {
        return at;
    }
    let a = write_bytes(out, at, b"why");
    let b = write_fields(out, a, slots);
    write_bytes(out, b, b"\n")
}
