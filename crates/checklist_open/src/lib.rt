// Opens a deposit checklist: the rules of its frame put into the slots of the empty table, and a table made of them.
#![tactic(auto)]

ghost use Rattle.std.specs.Prelude.{◌≤◌};
ghost use Rattle.checklist_frame.specs.Frame.{most_files};
ghost use Rattle.checklist_meaning.specs.Ends.{OpenEnds};
ghost use Rattle.checklist_open.specs.Parts.{FrameSlot, Framed};

use checklist_frame::{MOST_FILES, on_list};
use from_rules::make;
use refusals::Refusal;
use table::slots::put_rule;
use table::{Atom, Rule, Slot, Table};

// The slot that holds the frame's rule of slot i, unmuted.
fn frame_rule(i: u16) -> Rule
    requires { i ≤ most_files }
    ensures { FrameSlot i result }
{
    let no = Atom(0);
    if i == 0 {
        return Rule {
            state: 1,
            head: no,
            positives: 0,
            negatives: 0,
            entries: [no; Table::ENTRIES],
        };
    }
    let good = Atom(3 * i - 3);
    let sent = Atom(3 * i - 2);
    let skipped = Atom(3 * i - 1);
    Rule {
        state: 1,
        head: Atom(3 * i),
        positives: 2,
        negatives: 1,
        entries: [good, sent, skipped, no, no, no, no, no],
    }
}

// The table that holds the frame of n files and nothing else. Its rules differ, and no loop goes through a negation: so
// there is one.
fn framed(n: u16) -> Table
    requires { (1 ≤ n) × (n ≤ most_files) }
    ensures { Framed n result }
{
    let empty = Table::empty();
    let mut words = empty.words;
    for i in 0..=n {
        let rule = frame_rule(i);
        put_rule(&mut words, Slot(i), rule);
    }
    make(&mut words);
    Table { words }
}

// Opens a checklist for some files, whatever table is lent, or refuses and leaves the empty table. Asks 21.
pub fn open(table: &mut Table, files: u32) -> Result<(), Refusal>
    ensures { OpenEnds files result table.new }
{
    if !on_list(files, MOST_FILES) {
        *table = Table::empty();
        return Err(Refusal::WrongFileCount);
    }
    *table = framed(files as u16);
    Ok(())
}
