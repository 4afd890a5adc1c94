// A sheet that comes in pieces of any length, and the replies to its lines.
#![tactic(auto)]

ghost use Rattle.std.specs.Prelude.{◌≡◌, ◌+◌, ◌≤◌, ◌<◌, length, Ok};
ghost use Rattle.table.specs.Sound.{Sound};
ghost use Rattle.sheet_label_lines.specs.LabelLines.{LABELS_ROOM};
ghost use Rattle.sheet_meaning.specs.Sheets.{start};
ghost use Rattle.sheet_feed.specs.Sheets.{answer_in, StandsFor, Feeds, FeedsAll, RepliesAt};

use refusals::Refusal;
use sheet_begun::{Begun, next_line, read_begun};
use sheet_commands::obey;
use sheet_label_lines::LABELS_ROOM;
use sheet_scanner::{Judged, has_room, judge, scan};
use table::Table;

// A sheet as far as it was read: the table after its whole lines, and the line at hand.
#[derive(Clone, Copy)]
pub struct Sheet {
    pub table: Table,
    pub begun: Begun,
}

impl Sheet {
    // The start of a sheet: the empty table, and no byte of line 1.
    pub fn start() -> Sheet
        ensures { StandsFor start result }
    {
        Sheet {
            table: Table::empty(),
            begun: Begun::first(),
        }
    }
}

// What was made of a piece: the sheet after it, how many bytes of the piece were read, and how many were printed; or
// the refusal of a buffer without room for every reply.
#[derive(Clone, Copy)]
pub struct Fed {
    pub sheet: Sheet,
    pub read: usize,
    pub printed: usize,
    pub answer: Result<(), Refusal>,
}

// The table after a line, and the place in the buffer behind what it prints; or the same refusal.
#[derive(Clone, Copy)]
pub struct Reply {
    pub table: Table,
    pub next: usize,
    pub answer: Result<(), Refusal>,
}

// Question 11 of a buffer with so many bytes left: is there room for every reply? The refusal says how many are needed.
fn ask_room(left: usize) -> Result<(), Refusal>
    ensures { result ≡ answer_in left }
{
    if left < LABELS_ROOM {
        return Err(Refusal::BufferTooShort(LABELS_ROOM));
    }
    Ok(())
}

// The reply to the line at hand, with room for every reply.
fn reply_line(sheet: Sheet, out: &mut [u8], at: usize) -> Reply
    requires sound { Sound sheet.table }
    requires at_in_bounds { at + LABELS_ROOM ≤ length out.old }
    ensures replies_at { RepliesAt sheet out.old at out.new result }
    ensures sound_2 { Sound result.table }
{
    let parsed = read_begun(sheet.begun);
    match judge(parsed, out, at) {
        Judged::Told(next) => Reply {
            table: sheet.table,
            next,
            answer: Ok(()),
        },
        Judged::Command(command) => {
            let obeyed = obey(sheet.table, command, parsed, out, at);
            Reply {
                table: obeyed.table,
                next: obeyed.next,
                answer: Ok(()),
            }
        }
    }
}

// The reply to the line at hand. Where there is no room for every reply, 11 is refused and nothing is done.
pub fn reply_at(sheet: Sheet, out: &mut [u8], at: usize) -> Reply
    requires { Sound sheet.table }
    ensures replies_at { RepliesAt sheet out.old at out.new result }
    ensures sound { Sound result.table }
{
    if !has_room(out.len(), at) {
        return Reply {
            table: sheet.table,
            next: at,
            answer: Err(Refusal::BufferTooShort(LABELS_ROOM)),
        };
    }
    reply_line(sheet, out, at)
}

// Reads up to a command and obeys it, or to the end of the piece, or until there may be too little room for another
// reply. Lines that are no command are answered without the table.
fn feed_command(sheet: Sheet, input: &[u8], from: usize, out: &mut [u8], at: usize) -> Fed
    requires sound { Sound sheet.table }
    requires from_in_bounds { (from ≤ length input.now) × (at + LABELS_ROOM ≤ length out.old) }
    ensures feeds { Feeds sheet input.now from out.old at result out.new }
    ensures from_lt_read { (from < length input.now → from < result.read) × (result.answer ≡ Ok tt) }
    ensures sound_2 { Sound result.sheet.table }
{
    let done = scan(sheet.begun, input, from, out, at);
    let Some(found) = done.found else {
        return Fed {
            sheet: Sheet {
                table: sheet.table,
                begun: done.begun,
            },
            read: done.read,
            printed: done.printed,
            answer: Ok(()),
        };
    };
    let obeyed = obey(sheet.table, found.command, found.parsed, out, done.printed);
    let after = obeyed.table;
    Fed {
        sheet: Sheet {
            table: after,
            begun: next_line(done.begun, found.parsed.place),
        },
        read: done.read + 1,
        printed: obeyed.next,
        answer: Ok(()),
    }
}

// Reads a piece of the sheet, up to its end or until there may be too little room for another reply. The table is
// handed on once for each command. A buffer without room for every reply is refused by 11, and nothing is read.
pub fn feed(sheet: Sheet, input: &[u8], out: &mut [u8]) -> Fed
    requires { Sound sheet.table }
    ensures feeds { Feeds sheet input.now 0 out.old 0 result out.new }
    ensures feeds_all { FeedsAll input.now out.old result }
    ensures sound { Sound result.sheet.table }
{
    let mut fed = Fed {
        sheet,
        read: 0,
        printed: 0,
        answer: ask_room(out.len()),
    };
    while fed.read < input.len() && has_room(out.len(), fed.printed) {
        fed = feed_command(fed.sheet, input, fed.read, out, fed.printed);
    }
    fed
}
