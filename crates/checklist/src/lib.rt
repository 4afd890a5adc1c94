// What a deposit checklist is asked: is it complete, and which files are missing? A library above the table: it reads
// the slots and what they keep, and asks by the call label. Its list is written as those of the calls are. Arguments are
// bare numbers; no call asks anything of its caller.
#![tactic(auto)]

ghost use Rattle.std.specs.Prelude.{◌≡◌, true, ◌↔◌, ◌≤◌};
ghost use Rattle.table.specs.Words.{table_of};
ghost use Rattle.table.specs.Sound.{Sound};
ghost use Rattle.checklist_frame.specs.Frame.{most_files};
ghost use Rattle.checklist_meaning.specs.Ends.{MissingEnds, CompleteEnds};
ghost use Rattle.checklist.specs.Parts.{Lacking};

use checklist_frame::{MOST_FILES, Mark, file_count, good_atom, mark_atom};
use queries::label;
use refusals::Refusal;
use table::arrays::arrays_of;
use table::sets::has;
use table::{Label, Table};
use written_lists::write_marked;

// Is the table sound? Every call that answers no refusal 15 says so; this one asks about an atom that passes 10.
pub fn is_sound(table: &[u16; Table::WORDS]) -> bool
    ensures { (result ≡ true) ↔ Sound (table_of table.now) }
{
    label(table, 0).is_ok()
}

// Which of n files are unsent or have a skip standing, by the atoms that are in.
fn lacking(flags: &[bool; Table::ATOMS], n: usize) -> [bool; MOST_FILES + 1]
    requires { n ≤ most_files }
    ensures { Lacking flags.now n result }
{
    let mut lacks: [bool; MOST_FILES + 1] = [false; MOST_FILES + 1];
    for i in 1..=n {
        let sent = mark_atom(Mark::Sent, i as u16);
        let skipped = mark_atom(Mark::Skipped, i as u16);
        lacks[i] = !has(flags, sent) | has(flags, skipped);
    }
    lacks
}

// The files that are unsent or have a skip standing, written ascending from the start of the buffer; their count is
// answered, and later entries stay. Asks 15, 11.
pub fn missing(table: &[u16; Table::WORDS], buffer: &mut [u32]) -> Result<usize, Refusal>
    ensures { MissingEnds (table_of table.now) buffer.old result buffer.new }
{
    if !is_sound(table) {
        return Err(Refusal::TableUnsound);
    }
    let Some(files) = file_count(table) else {
        return Err(Refusal::TableUnsound); // sound, and no checklist
    };
    let kept = arrays_of(table);
    let lacks = lacking(&kept.flags, files);
    write_marked(&lacks, buffer)
}

// Is the last file's good in? Asks 15.
pub fn complete(table: &[u16; Table::WORDS]) -> Result<bool, Refusal>
    ensures { CompleteEnds (table_of table.now) result }
{
    let Some(n) = file_count(table) else {
        return Err(Refusal::TableUnsound); // whether or not it is sound
    };
    let last = good_atom(n as u16);
    let told = label(table, last.0 as u32)?;
    match told {
        Label::In(depth, slot) => Ok(true),
        Label::Absent => Ok(false),
        Label::Out => Ok(false),
    }
}
