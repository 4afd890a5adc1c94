// A file's sizes, numbers of two bytes, and the two sums of a block (specification 7.1 to 7.5). The limits of the table
// stand in `table`; these are the format's.
#![tactic(auto)]

ghost use Rattle.std.specs.Prelude.{◌≡◌, ◌+◌, ◌<◌, ◌≤◌, [], ◌∷◌, length};
ghost use Rattle.fields.specs.Written.{Wrote};
ghost use Rattle.file_blocks.specs.Words.{BYTE, word, word_at};
ghost use Rattle.file_blocks.specs.Sums.{sum_a, sum_b};

// The bytes of a block; those of them that are summed up, from the first on; those before the places.
pub const BLOCK: usize = 512;

pub const BODY: usize = 508;

pub const HEADER: usize = 6;

// The places of a block, and the bytes of a place.
pub const PLACES: usize = 22;

pub const PLACE: usize = 22;

// The top bit of the byte of the positive count: the mark of a muted rule (request #108).
pub const MARK: u8 = 128;

// The blocks of the longest file, and its bytes.
pub const BLOCKS: usize = 12;

pub const LONGEST: usize = BLOCK * BLOCKS;

// A byte is below this number.
const BYTE: u16 = 256;

// The two sums, A and B, which are a block's checksum.
#[derive(Clone, Copy)]
pub struct Pair {
    pub a: u16,
    pub b: u16,
}

// A byte as a number of two bytes.
fn wide(x: u8) -> u16
    ensures { (result ≡ x) × (result < BYTE) }
{
    x as u16
}

// The number of two bytes at an offset.
pub fn word_at(bytes: &[u8], at: usize) -> u16
    requires { at + 2 ≤ length bytes.now }
    ensures { result ≡ word_at bytes.now at }
{
    let low = wide(bytes[at]);
    let high = wide(bytes[at + 1]);
    low + BYTE * high
}

// Writes a number of two bytes at an offset, and answers the offset behind it.
pub fn write_word(out: &mut [u8], at: usize, n: u16) -> usize
    requires { at + 2 ≤ length out.old }
    ensures { Wrote (word n) out.old at out.new result }
{
    out[at] = (n % BYTE) as u8;
    out[at + 1] = (n / BYTE % BYTE) as u8;
    at + 2
}

// The sums of some bytes: A starts at 1, B at 0; for each byte A grows by the byte and then B by A, both starting over
// past 65,535.
pub fn sums(bytes: &[u8]) -> Pair
    ensures { (result.a ≡ sum_a bytes.now) × (result.b ≡ sum_b bytes.now) }
{
    let mut a: u16 = 1;
    let mut b: u16 = 0;
    for &x in bytes {
        a = a.wrapping_add(wide(x));
        b = b.wrapping_add(a);
    }
    Pair { a, b }
}
