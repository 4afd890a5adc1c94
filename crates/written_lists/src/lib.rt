// A list written from the start of a lent buffer: numbers one after another, and a whole set that is given by flags.
#![tactic(auto)]

ghost use Rattle.std.specs.Prelude.{◌≡◌, ◌≤◌, length, set};
ghost use Rattle.table.specs.Sets.{member, one_if};
ghost use Rattle.written_lists.specs.Lists.{listed_if, below, most_flags};
ghost use Rattle.written_lists.specs.Written.{Appends, Written};

use refusals::Refusal;

// How many a flag counts for.
fn one_if(flag: bool) -> usize
    ensures { result ≡ one_if flag }
{
    if flag { 1 } else { 0 }
}

// How many flags are true.
pub fn count_marked(flags: &[bool]) -> usize
    ensures { result ≡ length (below (member flags.now) (length flags.now)) }
{
    let mut n: usize = 0;
    for &flag in flags {
        n += one_if(flag);
    }
    n
}

// Writes a number at place n, if the buffer has that place.
pub fn write_at(buffer: &mut [u32], n: usize, v: u32)
    ensures { buffer.new ≡ set buffer.old n v }
{
    if n < buffer.len() {
        buffer[n] = v;
    }
}

// If the flag is true, writes its place at place n. Answers where the next one goes. There are at most as many before
// it as places below it.
fn write_if(buffer: &mut [u32], n: usize, place: u32, flag: bool) -> usize
    requires { n ≤ place }
    ensures { Appends (listed_if flag place) n result buffer.old buffer.new }
{
    if !flag {
        return n;
    }
    write_at(buffer, n, place);
    n + 1
}

// The places of the true flags, ascending, from the start of the buffer, if they fit.
pub fn write_marked(flags: &[bool], buffer: &mut [u32]) -> Result<usize, Refusal>
    requires { length flags.now ≤ most_flags }
    ensures { Written (below (member flags.now) (length flags.now))
        buffer.old result buffer.new }
{
    let needed = count_marked(flags);
    if needed > buffer.len() {
        return Err(Refusal::BufferTooShort(needed));
    }
    let mut n: usize = 0;
    for (i, &flag) in flags.iter().enumerate() {
        n = write_if(buffer, n, i as u32, flag);
    }
    Ok(needed)
}
