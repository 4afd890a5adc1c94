// Writing bytes, numbers and fields at a place of a lent buffer. Where the room is too small nothing is written, and
// the place stays.
#![tactic(auto)]

ghost use Rattle.std.specs.Prelude.{◌+◌, ◌-◌, ◌≤◌, ◌≡◌, length};
ghost use Rattle.fields.specs.Fields.{decimal, field};
ghost use Rattle.fields.specs.Written.{WroteIn};

// How many bytes are left from a place on, where there are len in all.
pub fn bytes_left(len: usize, at: usize) -> usize
    ensures { result ≡ len - at }
{
    len.saturating_sub(at)
}

// Writes bytes at a place, and answers the place behind them.
pub fn write_bytes(out: &mut [u8], at: usize, bytes: &[u8]) -> usize
    ensures { WroteIn (length bytes.now) bytes.now
        out.old at out.new result }
{
    if out.len() < at {
        return at;
    }
    if out.len() - at < bytes.len() {
        return at;
    }
    out[at..at + bytes.len()].copy_from_slice(bytes);
    at + bytes.len()
}

// Writes the decimal digits of a number at a place, and answers the place behind them.
pub fn write_number(out: &mut [u8], at: usize, n: u32) -> usize
    ensures { WroteIn (length (decimal n)) (decimal n) out.old at out.new result }
{
    let mut digits: [u8; 10] = [0; 10];
    let mut i: usize = 9;
    let mut rest = n;
    while rest >= 10 {
        digits[i] = (48 + rest % 10) as u8;
        rest = rest / 10;
        i -= 1;
    }
    digits[i] = (48 + rest) as u8;
    write_bytes(out, at, &digits[i..])
}

// Writes a space and a number, which has at most 10 digits, and answers the place behind them.
pub fn write_field(out: &mut [u8], at: usize, n: u32) -> usize
    ensures wrote_in { WroteIn 11 (field n) out.old at out.new result }
    ensures upper_bound { result ≤ at + 11 }
{
    if bytes_left(out.len(), at) < 11 {
        return at;
    }
    let next = write_bytes(out, at, b" ");
    write_number(out, next, n)
}
