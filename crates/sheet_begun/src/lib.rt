// The line at hand of a sheet that comes in pieces of any length: its number, and as many of its bytes as tell what it
// is.
#![tactic(auto)]

ghost use Rattle.std.specs.Prelude.{◌≡◌, []};
ghost use Rattle.places.specs.Places.{line_after};
ghost use Rattle.sheet_begun.specs.Begun.{BegunOf, Longer, ReadsAs};

use places::Place;
use sheet_lines::Parsed;
use sheet_lines::read::read;

// The line at hand: its number, and its bytes up to the length. Of a line that is too long, as many bytes are held as
// show that.
#[derive(Clone, Copy)]
pub struct Begun {
    pub number: u32,
    pub bytes: [u8; Begun::ENOUGH],
    pub length: usize,
}

impl Begun {
    // One byte more than a line may have.
    pub const ENOUGH: usize = Parsed::LINE + 1;

    // No byte of the first line. Lines count from 1.
    pub fn first() -> Begun
        ensures { BegunOf 1 [] result }
    {
        let place = Place::start();
        Begun {
            number: place.line,
            bytes: [0; Begun::ENOUGH],
            length: 0,
        }
    }
}

// No byte of the line behind the one that the place is in. The bytes of the line before it stay in the array and count
// no more.
pub fn next_line(begun: Begun, place: Place) -> Begun
    ensures { result ≡ record { number = line_after place.line; bytes = begun.bytes; length = 0 } }
{
    let bytes = begun.bytes;
    let next = place.next_line();
    Begun {
        number: next.line,
        bytes,
        length: 0,
    }
}

// The line at hand with bytes behind it, as many as are enough.
pub fn lengthen(begun: Begun, bytes: &[u8]) -> Begun
    ensures { Longer begun bytes.now result }
{
    let mut line = begun.bytes;
    let end = begun.length.min(Begun::ENOUGH);
    let n = bytes.len().min(Begun::ENOUGH - end);
    line[end..end + n].copy_from_slice(&bytes[..n]);
    Begun {
        number: begun.number,
        bytes: line,
        length: end + n,
    }
}

// What the line at hand is, as far as it was begun.
pub fn read_begun(begun: Begun) -> Parsed
    ensures { ReadsAs begun [] result }
{
    let line = begun.bytes;
    let place = Place {
        offset: 0,
        line: begun.number,
    };
    // A length counts as far as the array goes.
    let n = begun.length.min(Begun::ENOUGH);
    read(&line[..n], place)
}

// What the line at hand is with these bytes behind it. A line that lies whole in them is read there.
pub fn read_with(begun: Begun, bytes: &[u8]) -> Parsed
    ensures { ReadsAs begun bytes.now result }
{
    if begun.length == 0 {
        let place = Place {
            offset: 0,
            line: begun.number,
        };
        return read(bytes, place);
    }
    read_begun(lengthen(begun, bytes))
}
