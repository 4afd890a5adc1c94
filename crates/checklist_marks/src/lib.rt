// The calls on a file of a deposit checklist: file sent, file skipped, skip withdrawn. A library above the table: what
// it asks and changes it does by the calls label and add, and by what remove does to a sound table. Arguments are bare
// numbers; no call asks anything of its caller.
#![tactic(auto)]

ghost use Rattle.table.specs.Words.{table_of};
ghost use Rattle.checklist_meaning.specs.Questions.{file_sent, file_skipped, skip_withdrawn};
ghost use Rattle.checklist_meaning.specs.Ends.{FileEnds};
ghost use Rattle.checklist_marks.specs.Parts.{FileAsked, FactAdded, FactRemoved};

use add_remove::{add, remove_from_sound};
use checklist::is_sound;
use checklist_frame::{Mark, file_count, mark_atom, on_list};
use queries::label;
use refusals::{Refusal, refusal_number};
use table::{Atom, Label, Table};

// Asks 20, and before it whether the rules are a checklist's (15; specification 8.4): the atom of the file's mark, or
// the refusal. Where 20 is the refusal, the table is asked first whether it is sound (15); where the file passes, the
// call that follows asks it.
fn ask_file(table: &[u16; Table::WORDS], file: u32, mark: Mark) -> Result<Atom, Refusal>
    ensures { FileAsked (table_of table.now) file mark result }
{
    let n = file_count(table).ok_or(Refusal::TableUnsound)?;
    if on_list(file, n) {
        return Ok(mark_atom(mark, file as u16));
    }
    if !is_sound(table) {
        return Err(Refusal::TableUnsound);
    }
    Err(Refusal::FileNotListed)
}

// Adds the fact of a mark. That the table has it already (5) is told as 22.
fn add_mark(table: &mut Table, atom: Atom) -> Result<(), Refusal>
    ensures { FactAdded table.old atom.0 result table.new }
{
    let none: [u32; 0] = [];
    let added = add(table, atom.0 as u32, &none, &none);
    match added {
        Ok(slot) => Ok(()),
        Err(why) => {
            // by its number: with an arm for SameRule the proof has no fact that the arm behind it is another refusal
            if refusal_number(why) == 5 {
                return Err(Refusal::MarkUnchanged);
            }
            Err(why)
        }
    }
}

// Removes the fact of a mark. It stands in the slot that supports its atom. A table of which a label was told is sound.
fn remove_mark(table: &mut Table, atom: Atom) -> Result<(), Refusal>
    ensures { FactRemoved table.old atom.0 result table.new }
{
    let told = label(&table.words, atom.0 as u32)?;
    match told {
        Label::In(depth, slot) => remove_from_sound(table, slot.0 as u32),
        Label::Absent => Err(Refusal::MarkUnchanged),
        Label::Out => Err(Refusal::MarkUnchanged),
    }
}

// The file was sent. Asks 15, 20, 22.
pub fn file_sent(table: &mut Table, file: u32) -> Result<(), Refusal>
    ensures { FileEnds table.old (file_sent file) result table.new }
{
    let sent = ask_file(&table.words, file, Mark::Sent)?;
    add_mark(table, sent)
}

// The file was skipped. Asks 15, 20, 22.
pub fn file_skipped(table: &mut Table, file: u32) -> Result<(), Refusal>
    ensures { FileEnds table.old (file_skipped file) result table.new }
{
    let skip = ask_file(&table.words, file, Mark::Skipped)?;
    add_mark(table, skip)
}

// The skip of the file is withdrawn. Asks 15, 20, 22.
pub fn skip_withdrawn(table: &mut Table, file: u32) -> Result<(), Refusal>
    ensures { FileEnds table.old (skip_withdrawn file) result table.new }
{
    let standing = ask_file(&table.words, file, Mark::Skipped)?;
    remove_mark(table, standing)
}
