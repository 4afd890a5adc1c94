// The calls for C: numbers, slices and structs of numbers cross the boundary, and nothing else. include/yeqontur.h says
// the same for C.
#![tactic(auto)]

ghost use Rattle.std.specs.Prelude.{◌≡◌, not, eqb};
ghost use Rattle.std.specs.Fn.{FnOnceReturnsAtMut};
ghost use Rattle.table.specs.Clean.{empty_table};
ghost use Rattle.table.specs.Questions.{rule_from};
ghost use Rattle.calls.specs.Ends.{JustificationsEnd, ConsequencesEnd, RepercussionsEnd, ReasonEnds};
ghost use Rattle.calls.specs.Ends.{ReplaceEnds, MuteEnds, SaveEnds, LoadEnds};
ghost use Rattle.label_list.specs.Listed.{LabelsEnd};
ghost use Rattle.checklist_meaning.specs.Questions.{file_sent, file_skipped, skip_withdrawn};
ghost use Rattle.checklist_meaning.specs.Ends.{OpenEnds, FileEnds, MissingEnds};
ghost use Rattle.yeqontur.specs.Crossing.{AddCrosses, RemoveCrosses, LabelCrosses, SpoilerCrosses, ListCrosses};
ghost use Rattle.yeqontur.specs.Crossing.{ChangeCrosses, CompleteCrosses, RuleCrosses};
ghost use Rattle.yeqontur.specs.Versions.{version, layout};

use add_remove::{add, remove};
use c_answers::{
    Accepted, AtomLabel, Change, Completeness, RuleSpoiler, SlotRule, Written, crossed_add,
    crossed_change, crossed_remove,
};
use checklist::{complete, missing};
use checklist_marks::{file_sent, file_skipped, skip_withdrawn};
use checklist_open::open;
use file_calls::{load, save};
use label_list::labels;
use muting::mute;
use queries::{consequences, justifications, label, repercussions, rule, spoiler};
use reason_call::reason;
use refusals::Refusal;
use replacing::replace;
use table::Table;

const VERSION: u32 = 200;

const LAYOUT: u32 = 2;

// The version of the library that the program runs with.
#[unsafe(no_mangle)]
pub extern "C" fn yeqontur_version() -> u32
    ensures { result ≡ version }
{
    VERSION
}

// The layout of its tables and answers.
#[unsafe(no_mangle)]
pub extern "C" fn yeqontur_layout() -> u32
    ensures { result ≡ layout }
{
    LAYOUT
}

// The table in which every slot is free.
#[unsafe(no_mangle)]
pub extern "C" fn yeqontur_empty() -> Table
    ensures { result ≡ empty_table }
{
    Table::empty()
}

#[unsafe(no_mangle)]
pub extern "C" fn yeqontur_add(
    table: Table,
    head: u32,
    positives: &[u32],
    negatives: &[u32],
) -> Change
    ensures { AddCrosses table (rule_from head positives.now negatives.now) result }
{
    let mut after = table;
    let answer = add(&mut after, head, positives, negatives);
    crossed_add(answer, after)
}

#[unsafe(no_mangle)]
pub extern "C" fn yeqontur_remove(table: Table, slot: u32) -> Change
    ensures { RemoveCrosses table slot result }
{
    let mut after = table;
    let answer = remove(&mut after, slot);
    crossed_remove(slot, answer, after)
}

// The table after a call that has no answer named, and that call's answer, as they cross.
fn changed<F: FnOnce(&mut Table) -> Result<(), Refusal>>(table: Table, call: F) -> Accepted
    requires { F.IsAlwaysCallable call }
    ensures { ChangeCrosses (FnOnceReturnsAtMut F.FnOnce call table) result }
{
    let mut after = table;
    let answer = call(&mut after);
    crossed_change(answer, after)
}

#[unsafe(no_mangle)]
pub extern "C" fn yeqontur_replace(
    table: Table,
    slot: u32,
    head: u32,
    positives: &[u32],
    negatives: &[u32],
) -> Accepted
    ensures { ChangeCrosses
        (ReplaceEnds table slot (rule_from head positives.now negatives.now)) result }
{
    changed(table, |t| replace(t, slot, head, positives, negatives))
}

// 0 unmutes, any other number mutes.
#[unsafe(no_mangle)]
pub extern "C" fn yeqontur_mute(table: Table, slot: u32, muted: u32) -> Accepted
    ensures { ChangeCrosses (MuteEnds table slot (not (eqb muted 0))) result }
{
    changed(table, |t| mute(t, slot, muted != 0))
}

#[unsafe(no_mangle)]
pub extern "C" fn yeqontur_label(table: Table, atom: u32) -> AtomLabel
    ensures { LabelCrosses table atom result }
{
    label(&table.words, atom).into()
}

// C needs a function for each list, so those that write one differ in the call alone.
#[unsafe(no_mangle)]
pub extern "C" fn yeqontur_labels(table: Table, buffer: &mut [u32]) -> Written
    ensures { ListCrosses (LabelsEnd table buffer.old) buffer.new result }
{
    labels(&table.words, buffer).into()
}

#[unsafe(no_mangle)]
pub extern "C" fn yeqontur_rule(table: Table, slot: u32) -> SlotRule
    ensures { RuleCrosses table slot result }
{
    rule(&table.words, slot).into()
}

#[unsafe(no_mangle)]
pub extern "C" fn yeqontur_spoiler(table: Table, slot: u32) -> RuleSpoiler
    ensures { SpoilerCrosses table slot result }
{
    spoiler(&table.words, slot).into()
}

#[unsafe(no_mangle)]
pub extern "C" fn yeqontur_justifications(table: Table, atom: u32, buffer: &mut [u32]) -> Written
    ensures { ListCrosses (JustificationsEnd table atom buffer.old) buffer.new result }
{
    justifications(&table.words, atom, buffer).into()
}

#[unsafe(no_mangle)]
pub extern "C" fn yeqontur_consequences(table: Table, atom: u32, buffer: &mut [u32]) -> Written
    ensures { ListCrosses (ConsequencesEnd table atom buffer.old) buffer.new result }
{
    consequences(&table.words, atom, buffer).into()
}

#[unsafe(no_mangle)]
pub extern "C" fn yeqontur_repercussions(table: Table, atom: u32, buffer: &mut [u32]) -> Written
    ensures { ListCrosses (RepercussionsEnd table atom buffer.old) buffer.new result }
{
    repercussions(&table.words, atom, buffer).into()
}

#[unsafe(no_mangle)]
pub extern "C" fn yeqontur_reason(table: Table, atom: u32, buffer: &mut [u32]) -> Written
    ensures { ListCrosses (ReasonEnds table atom buffer.old) buffer.new result }
{
    reason(&table.words, atom, buffer).into()
}

#[unsafe(no_mangle)]
pub extern "C" fn yeqontur_save(table: Table, bytes: &mut [u8]) -> Written
    ensures { ListCrosses (SaveEnds table bytes.old) bytes.new result }
{
    save(&table.words, bytes).into()
}

#[unsafe(no_mangle)]
pub extern "C" fn yeqontur_load(bytes: &[u8]) -> Accepted
    ensures { ChangeCrosses (LoadEnds bytes.now) result }
{
    changed(Table::empty(), |t| load(t, bytes))
}

#[unsafe(no_mangle)]
pub extern "C" fn yeqontur_checklist_open(files: u32) -> Accepted
    ensures { ChangeCrosses (OpenEnds files) result }
{
    changed(Table::empty(), |t| open(t, files))
}

#[unsafe(no_mangle)]
pub extern "C" fn yeqontur_checklist_sent(table: Table, file: u32) -> Accepted
    ensures { ChangeCrosses (FileEnds table (file_sent file)) result }
{
    changed(table, |t| file_sent(t, file))
}

#[unsafe(no_mangle)]
pub extern "C" fn yeqontur_checklist_skipped(table: Table, file: u32) -> Accepted
    ensures { ChangeCrosses (FileEnds table (file_skipped file)) result }
{
    changed(table, |t| file_skipped(t, file))
}

#[unsafe(no_mangle)]
pub extern "C" fn yeqontur_checklist_withdraw(table: Table, file: u32) -> Accepted
    ensures { ChangeCrosses (FileEnds table (skip_withdrawn file)) result }
{
    changed(table, |t| skip_withdrawn(t, file))
}

#[unsafe(no_mangle)]
pub extern "C" fn yeqontur_checklist_missing(table: Table, buffer: &mut [u32]) -> Written
    ensures { ListCrosses (MissingEnds table buffer.old) buffer.new result }
{
    missing(&table.words, buffer).into()
}

#[unsafe(no_mangle)]
pub extern "C" fn yeqontur_checklist_complete(table: Table) -> Completeness
    ensures { CompleteCrosses table result }
{
    complete(&table.words).into()
}
