// A sheet on standard input, answered with one table, empty at the start: each reply is shown on standard output, or
// none is.
#![tactic(auto)]

ghost use Rattle.std.specs.Prelude.{◌+◌, ◌<◌, ◌^◌, ◌≡◌, true, false, length};
ghost use Rattle.table.specs.Sound.{Sound};
ghost use Rattle.sheet_meaning.specs.Sheets.{MOST};
ghost use Rattle.program_loop.specs.Takes.{SPACE};
ghost use Rattle.program_sheet.specs.Answered.{RepliesLast, AnswersFrom, AnswersLast, AnswersSheet};

use program_io::show;
use program_loop::{Task, output_buffer, take_input};
use sheet_feed::{Reply, Sheet, reply_at};

// The most bytes of input that are read (`MOST` in crates/sheet_meaning/specs/Sheets.antt): what follows is as if the
// input ended there.
pub const MOST: usize = 1048576;

// The reply to the last line. How many bytes were read, and how many of these the last read gave; how many were shown,
// and how many were lost because they could not be written.
#[derive(Clone, Copy)]
pub struct Last {
    pub reply: Reply,
    pub read: usize,
    pub got: usize,
    pub shown: usize,
    pub lost: usize,
}

// Replies to the last line, which may lack its newline. Once something can't be written, nothing more is.
fn reply_last(
    rt: &HostRuntime,
    sheet: Sheet,
    showing: bool,
    out: &mut [u8],
    shown: &mut usize,
    lost: &mut usize,
) -> Reply
    requires sound { Sound sheet.table }
    requires out_len { (length out.old ≡ SPACE) × (shown.old + SPACE < 2 ^ 64) }
    ensures replies_last { RepliesLast sheet showing out.old out.new shown.old
        lost.old shown.new lost.new result }
    ensures sound_2 { Sound result.table }
{
    let reply = reply_at(sheet, out, 0);
    if *lost > 0 {
        return reply;
    }
    show(rt, showing, out, reply.next, shown, lost);
    reply
}

// Answers each line as it comes, and then the last one.
fn answer_from(rt: &HostRuntime, sheet: Sheet, showing: bool, input: &mut [u8]) -> Last
    requires sound { Sound sheet.table }
    requires input_len { length input.old ≡ MOST }
    ensures answers_from { AnswersFrom sheet showing input.new result }
    ensures sound_2 { Sound result.reply.table }
{
    let mut out = output_buffer();
    let mut read: usize = 0;
    let mut got: usize = 1;
    let mut shown: usize = 0;
    let mut lost: usize = 0;
    let at_last = take_input(
        rt,
        Task::Answer(showing),
        sheet,
        input,
        &mut out,
        &mut read,
        &mut got,
        &mut shown,
        &mut lost,
    );
    let reply = reply_last(rt, at_last, showing, &mut out, &mut shown, &mut lost);
    Last {
        reply,
        read,
        got,
        shown,
        lost,
    }
}

// The same from the start: line 1 with the empty table. By the laws of proofs/Joined.antt, what is shown is what the
// plain book prints of the bytes that standard input gave.
pub fn answer_input(rt: &HostRuntime, input: &mut [u8]) -> Last
    requires { length input.old ≡ MOST }
    ensures { AnswersLast true input.new result }
{
    answer_from(rt, Sheet::start(), true, input)
}

// The same with no reply shown: the table after the last line is all that a sheet leaves.
pub fn leave_input(rt: &HostRuntime, input: &mut [u8]) -> Last
    requires { length input.old ≡ MOST }
    ensures { AnswersLast false input.new result }
{
    answer_from(rt, Sheet::start(), false, input)
}

// Zeros, for all the bytes that a program reads.
pub fn input_buffer() -> [u8; MOST]
    ensures { MOST ≡ length result }
{
    [0; MOST]
}

// The whole of the sheet program. What it hands back is for its contract alone.
pub fn run(rt: &HostRuntime) -> Last
    ensures { AnswersSheet result }
{
    let mut input = input_buffer();
    answer_input(rt, &mut input)
}
