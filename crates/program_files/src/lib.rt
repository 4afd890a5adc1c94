// The programs that keep a table on disk (request #103): one reads a sheet and writes the file of the table that it
// leaves; the other reads a file and writes the labels of its table as `L` does, or `refused` and the number.
#![tactic(auto)]

ghost use Rattle.std.specs.Prelude.{◌+◌, ◌≡◌, length};
ghost use Rattle.sheet_meaning.specs.Sheets.{MOST};
ghost use Rattle.file_lines.specs.Loads.{LONGEST};
ghost use Rattle.program_loop.specs.Takes.{SPACE};
ghost use Rattle.program_files.specs.Saves.{count_of, SavesInput, SavesSheet};
ghost use Rattle.program_files.specs.Loads.{LoadsInput, LoadsFile};

use file_blocks::LONGEST;
use file_calls::save;
use file_lines::load_lines;
use program_io::show;
use program_loop::{Task, output_buffer, take_input};
use program_sheet::{Last, input_buffer, leave_input};
use refusals::Refusal;
use sheet_feed::Sheet;

// What a sheet left and what was saved of it: the reply to its last line, with the table after it; how many bytes that
// table's file has; how many were shown, and how many were lost because they could not be written.
#[derive(Clone, Copy)]
pub struct Saved {
    pub last: Last,
    pub count: usize,
    pub shown: usize,
    pub lost: usize,
}

// What was read of a file and printed of it: how many bytes were read, and how many of these the last read gave; how
// many are printed; how many were shown, and how many were lost because they could not be written.
#[derive(Clone, Copy)]
pub struct Listed {
    pub read: usize,
    pub got: usize,
    pub printed: usize,
    pub shown: usize,
    pub lost: usize,
}

// How many bytes were written into a buffer: none where that was refused.
fn count_of(answer: Result<usize, Refusal>) -> usize
    ensures { result ≡ count_of answer }
{
    answer.unwrap_or(0)
}

// Reads a sheet to its end, showing no reply, saves the table after its last line and writes the file on standard
// output, and nothing else. By the law `saved-book` (proofs/Books.antt) that is the file of the plain book's pages
// after the calls that the sheet's lines are.
pub fn save_input(rt: &HostRuntime, input: &mut [u8], file: &mut [u8]) -> Saved
    requires { (length input.old ≡ MOST) × (length file.old ≡ LONGEST) }
    ensures { SavesInput input.new file.old file.new result }
{
    let last = leave_input(rt, input);
    let reply = last.reply;
    let table = reply.table;
    let answer = save(&table.words, file);
    let count = count_of(answer);
    let mut shown = last.shown;
    let mut lost = last.lost;
    show(rt, true, file, count, &mut shown, &mut lost);
    Saved {
        last,
        count,
        shown,
        lost,
    }
}

// The whole of the saving program. What it hands back is for its contract alone.
pub fn save_run(rt: &HostRuntime) -> Saved
    ensures { SavesSheet result }
{
    let mut input = input_buffer();
    let mut file: [u8; LONGEST] = [0; LONGEST];
    save_input(rt, &mut input, &mut file)
}

// Reads an input and prints the lines of it on standard output. The buffer has room for one byte more than a file can
// have, and no more is read: what is printed of a longer input is the same, `refused 16` (the laws `longer-16` and
// `first-bytes`, crates/file_lines/proofs/Books.antt).
pub fn load_input(rt: &HostRuntime, file: &mut [u8], out: &mut [u8]) -> Listed
    requires { (length file.old ≡ LONGEST + 1) × (length out.old ≡ SPACE) }
    ensures { LoadsInput file.new out.new result }
{
    let mut read: usize = 0;
    let mut got: usize = 1;
    let mut shown: usize = 0;
    let mut lost: usize = 0;
    take_input(
        rt,
        Task::Keep,
        Sheet::start(),
        file,
        out,
        &mut read,
        &mut got,
        &mut shown,
        &mut lost,
    );
    let n = read;
    let answer = load_lines(&file[..n], out);
    let printed = count_of(answer);
    show(rt, true, out, printed, &mut shown, &mut lost);
    Listed {
        read,
        got,
        printed,
        shown,
        lost,
    }
}

// The whole of the loading program. What it hands back is for its contract alone.
pub fn load_run(rt: &HostRuntime) -> Listed
    ensures { LoadsFile result }
{
    let mut file: [u8; LONGEST + 1] = [0; LONGEST + 1];
    let mut out = output_buffer();
    load_input(rt, &mut file, &mut out)
}
