// Scanning a sheet that comes in pieces of any length: each line is read once. One that leaves the table alone is
// answered in a lent buffer; the first command is handed on as it was read.
#![tactic(auto)]

ghost use Rattle.std.specs.Prelude.{◌≡◌, ◌+◌, ◌-◌, ◌≤◌, leb, length, drop};
ghost use Rattle.sheet_label_lines.specs.LabelLines.{LABELS_ROOM};
ghost use Rattle.sheet_scanner.specs.Judging.{Judges, Unread};
ghost use Rattle.sheet_scanner.specs.Scans.{line_end, Scans, ScansOne, ScansAll};

use fields::bytes_left;
use sheet_begun::{Begun, lengthen, next_line, read_with};
use sheet_label_lines::LABELS_ROOM;
use sheet_lines::{Command, Parsed, Reading};
use sheet_printing::write_refusal;

// Questions 14 and 13 (specification 6.8) of a line: what it prints ends at this place of the buffer, or it is a
// command. Neither outcome is a failure, nor is either the lack of the other: so it is no Result and no Option.
#[derive(Clone, Copy)]
pub enum Judged {
    Told(usize),
    Command(Command),
}

// A command that was found, and what was read of its line.
#[derive(Clone, Copy)]
pub struct FoundCommand {
    pub command: Command,
    pub parsed: Parsed,
}

// What was made of a piece without the table: the line at hand, how many bytes of the piece were read and how many were
// printed, whether the next line may be scanned too, and the command that was found, if one was. A command's line is at
// hand, whole: it was read up to its newline.
#[derive(Clone, Copy)]
pub struct Scanned {
    pub begun: Begun,
    pub read: usize,
    pub printed: usize,
    pub more: bool,
    pub found: Option<FoundCommand>,
}

// Is there room for every reply at this place of a buffer? No reply is longer than the lines of all labels.
pub fn has_room(length: usize, at: usize) -> bool
    ensures { result ≡ leb LABELS_ROOM (length - at) }
{
    bytes_left(length, at) >= LABELS_ROOM
}

// Where the line that begins at an offset ends: at the first newline, or at the end of the piece. Past that end it is
// the offset.
fn line_end(input: &[u8], from: usize) -> usize
    ensures { result ≡ from + line_end (drop from input.now) }
{
    let rest = &input[from.min(input.len())..];
    from + rest.iter().take_while(|&&b| b != b'\n').count()
}

// Question 13 of a line that is neither blank nor too long. A line without the form is refused before the table is
// touched.
fn command_of(parsed: Parsed, out: &mut [u8], at: usize) -> Judged
    requires { at + LABELS_ROOM ≤ length out.old }
    ensures { Unread parsed out.old at out.new result }
{
    let Reading::Command(command) = parsed.reading else {
        return Judged::Told(write_refusal(out, at, parsed.place.line, 13));
    };
    Judged::Command(command)
}

// A blank line prints nothing; else question 14, then 13.
pub fn judge(parsed: Parsed, out: &mut [u8], at: usize) -> Judged
    requires { at + LABELS_ROOM ≤ length out.old }
    ensures { Judges parsed out.old at out.new result }
{
    match parsed.reading {
        Reading::Blank => Judged::Told(at),
        Reading::LineTooLong => Judged::Told(write_refusal(out, at, parsed.place.line, 14)),
        _ => command_of(parsed, out, at),
    }
}

// Scans the rest of one line, or of the piece if that ends first. A line that ends and leaves the table alone is
// answered. The bytes of any other are added to the line at hand.
fn scan_line(begun: Begun, input: &[u8], from: usize, out: &mut [u8], at: usize) -> Scanned
    requires { (from ≤ length input.now) × (at + LABELS_ROOM ≤ length out.old) }
    ensures scans { Scans begun input.now from out.old at out.new result }
    ensures scans_one { ScansOne input.now from result }
{
    let end = line_end(input, from);
    let part = &input[from..end];
    if end == input.len() {
        let longer = lengthen(begun, part);
        return Scanned {
            begun: longer,
            read: end,
            printed: at,
            more: false,
            found: None,
        };
    }
    let parsed = read_with(begun, part);
    match judge(parsed, out, at) {
        Judged::Told(next) => Scanned {
            begun: next_line(begun, parsed.place),
            read: end + 1,
            printed: next,
            more: true,
            found: None,
        },
        Judged::Command(command) => Scanned {
            begun: lengthen(begun, part),
            read: end,
            printed: at,
            more: false,
            found: Some(FoundCommand { command, parsed }),
        },
    }
}

// Scans line by line, up to the first command, the end of the piece, or too little room for another reply.
pub fn scan(begun: Begun, input: &[u8], from: usize, out: &mut [u8], at: usize) -> Scanned
    requires { (from ≤ length input.now) × (at + LABELS_ROOM ≤ length out.old) }
    ensures scans { Scans begun input.now from out.old at out.new result }
    ensures scans_all { ScansAll input.now from out.old result }
{
    let mut done = scan_line(begun, input, from, out, at);
    while done.more && has_room(out.len(), done.printed) {
        done = scan_line(done.begun, input, done.read, out, done.printed);
    }
    done
}
