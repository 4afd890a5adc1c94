// What is asked of the system: a read behind what was read before, and a write. What they did is told in cells that are
// lent, and that no other function writes. `rt` is the handle without which nothing is read or written.
#![tactic(auto)]

ghost use Rattle.std.specs.Prelude.{◌+◌, ◌≤◌, ◌<◌, ◌^◌, ◌≡◌, length, take};
ghost use Rattle.program_io.specs.Told.{shown_of, Writes};
ghost use Rattle.program_io.specs.Reads.{ReadsPart, ReadsOn};

use std::io::Read;

// Writes bytes on standard output: they are counted as shown, or as lost where that fails, and then one line on
// standard error says so. Not to be called once bytes are lost. That the bytes are written is believed.
fn write_out(rt: &HostRuntime, bytes: &[u8], shown: &mut usize, lost: &mut usize)
    requires { (shown.old + length bytes.now < 2 ^ 64) × (lost.old ≡ 0) }
    ensures { Writes bytes.now shown.old shown.new lost.new }
{
    let n = bytes.len();
    if rt.stdout().write_all(bytes).is_ok() {
        *shown += n;
        return;
    }
    *lost = n;
    let _ = rt
        .stderr()
        .write_all(b"yeqontur: the output cannot be written\n");
}

// Writes the first n bytes if they are to be shown; else nothing is written, and nothing is lost.
pub fn show(
    rt: &HostRuntime,
    showing: bool,
    bytes: &[u8],
    n: usize,
    shown: &mut usize,
    lost: &mut usize,
)
    requires { (n ≤ length bytes.now) × (shown.old + n < 2 ^ 64) × (lost.old ≡ 0) }
    ensures { Writes (shown_of showing (take n bytes.now))
        shown.old shown.new lost.new }
{
    if !showing {
        return;
    }
    write_out(rt, &bytes[..n], shown, lost);
}

// Reads once from standard input into a part of a buffer: what this read got is noted, and counted with what was read
// before. A read that fails gets nothing. Not to be called with no room, nor after a read that got nothing. That the
// bytes are those of standard input is believed.
fn read_part(rt: &HostRuntime, part: &mut [u8], read: &mut usize, got: &mut usize)
    requires { (0 < length part.old) × (read.old + length part.old < 2 ^ 64) × (0 < got.old) }
    ensures { ReadsPart part.new
        read.old got.old read.new got.new }
{
    let n = rt.stdin().read(part).unwrap_or(0);
    *got = n;
    *read += n;
}

// Reads once behind the bytes that were read before, which stay. Not to be called once bytes are lost: then nothing
// more is read.
pub fn read_on(rt: &HostRuntime, input: &mut [u8], read: &mut usize, got: &mut usize, lost: &usize)
    requires { (read.old < length input.old) × (0 < got.old) × (lost.now ≡ 0) }
    ensures { ReadsOn input.old read.old got.old
        input.new read.new got.new }
{
    let from = *read;
    read_part(rt, &mut input[from..], read, got);
}
