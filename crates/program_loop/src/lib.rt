// The one loop that reads: the bytes of standard input are taken as they come, piece by piece, by the task of the
// program that reads them.
#![tactic(auto)]

ghost use Rattle.std.specs.Prelude.{◌+◌, ◌-◌, ◌*◌, ◌≤◌, ◌<◌, ◌^◌, ◌≡◌, length, take, drop};
ghost use Rattle.table.specs.Sound.{Sound};
ghost use Rattle.sheet_meaning.specs.Sheets.{MOST};
ghost use Rattle.program_loop.specs.Takes.{SPACE, Answers, Takes, TakesRead, TakesInput};

use program_io::{read_on, show};
use sheet_feed::{Sheet, feed};

// What a program does with the bytes that it reads: it answers them as lines of a sheet, and shows the replies or none;
// or it keeps them.
#[derive(Clone, Copy)]
pub enum Task {
    Answer(bool),
    Keep,
}

// The bytes of the buffer that replies are written into.
const SPACE: usize = 65536;

// Zeros, for what a program prints at a time.
pub fn output_buffer() -> [u8; SPACE]
    ensures { SPACE ≡ length result }
{
    [0; SPACE]
}

// Answers the lines of a piece: all of its bytes are fed, in order, unless what is shown can't be written.
fn answer(
    rt: &HostRuntime,
    sheet: Sheet,
    piece: &[u8],
    showing: bool,
    out: &mut [u8],
    shown: &mut usize,
    lost: &mut usize,
) -> Sheet
    requires sound { Sound sheet.table }
    requires out_len { (length out.old ≡ SPACE) × (shown.old + SPACE * length piece.now < 2 ^ 64) × (lost.old ≡ 0) }
    ensures answers { Answers sheet showing piece.now
        shown.old shown.new lost.new result }
    ensures sound_2 { Sound result.table }
{
    let mut s = sheet;
    let mut from: usize = 0;
    while *lost == 0 && from < piece.len() {
        let fed = feed(s, &piece[from..], out);
        show(rt, showing, out, fed.printed, shown, lost);
        s = fed.sheet;
        from += fed.read;
    }
    s
}

// Does the task on the bytes of the input from one place to another. What is kept stays in the input.
fn take_piece(
    rt: &HostRuntime,
    task: Task,
    sheet: Sheet,
    input: &[u8],
    from: usize,
    end: usize,
    out: &mut [u8],
    shown: &mut usize,
    lost: &mut usize,
) -> Sheet
    requires sound { Sound sheet.table }
    requires from_le_end { (from ≤ end) × (end ≤ length input.now) }
    requires out_len { (length out.old ≡ SPACE) × (shown.old + SPACE * (end - from) < 2 ^ 64) × (lost.old ≡ 0) }
    ensures takes { Takes task sheet (take (end - from) (drop from input.now))
        shown.old shown.new lost.new result }
    ensures sound_2 { Sound result.table }
{
    match task {
        Task::Answer(showing) => answer(rt, sheet, &input[from..end], showing, out, shown, lost),
        Task::Keep => sheet,
    }
}

// Reads once, and does the task on the bytes that this read got. The function that does it can't write them.
fn take_read(
    rt: &HostRuntime,
    task: Task,
    sheet: Sheet,
    input: &mut [u8],
    out: &mut [u8],
    read: &mut usize,
    got: &mut usize,
    shown: &mut usize,
    lost: &mut usize,
) -> Sheet
    requires sound { Sound sheet.table }
    requires input_len_bound { (length input.old ≤ MOST) × (read.old < length input.old) × (0 < got.old) }
    requires out_len { (length out.old ≡ SPACE) × (shown.old ≤ SPACE * read.old) × (lost.old ≡ 0) }
    ensures takes_read { TakesRead task sheet
        input.old read.old got.old shown.old
        input.new read.new got.new shown.new lost.new result }
    ensures sound_2 { Sound result.table }
{
    let from = *read;
    read_on(rt, input, read, got, lost);
    let end = *read;
    take_piece(rt, task, sheet, input, from, end, out, shown, lost)
}

// Reads and does the task until a write fails, a read gives nothing, or the buffer is full: a program reads no more
// bytes than the buffer has that it lends.
pub fn take_input(
    rt: &HostRuntime,
    task: Task,
    sheet: Sheet,
    input: &mut [u8],
    out: &mut [u8],
    read: &mut usize,
    got: &mut usize,
    shown: &mut usize,
    lost: &mut usize,
) -> Sheet
    requires sound { Sound sheet.table }
    requires input_len_bound { (length input.old ≤ MOST) × (length out.old ≡ SPACE) }
    requires read_value { (read.old ≡ 0) × (0 < got.old) × (shown.old ≡ 0) × (lost.old ≡ 0) }
    ensures takes_input { TakesInput task sheet input.new
        read.new got.new shown.new lost.new result }
    ensures sound_2 { Sound result.table }
{
    let mut s = sheet;
    while *lost == 0 && *got > 0 && *read < input.len() {
        s = take_read(rt, task, s, input, out, read, got, shown, lost);
    }
    s
}
