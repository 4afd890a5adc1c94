// A list of calls, written as numbers, made one after another from the empty table.
#![tactic(auto)]

ghost use Rattle.std.specs.Prelude.{◌≡◌};
ghost use Rattle.calls.specs.Answers.{book_add, book_change};
ghost use Rattle.history_words.specs.Reading.{checklist_call};
ghost use Rattle.history_replay.specs.Replays.{encode, Replays};
ghost use Rattle.history_replay.specs.Steps.{StepOf, ChecklistEnds};

use add_remove::{add, remove};
use checklist_marks::{file_sent, file_skipped, skip_withdrawn};
use checklist_open::open;
use file_calls::load;
use history_words::{ChecklistCall, Next, next_call};
use muting::mute;
use refusals::{Refusal, refusal_number};
use replacing::replace;
use table::{Slot, Table};

// How many calls were made, and the table that the last handed back.
#[repr(C)]
#[derive(Clone, Copy)]
pub struct Replayed {
    pub count: usize,
    pub table: Table,
}

// What a call answered, as the number that crosses to C, and where the next call stands.
#[derive(Clone, Copy)]
struct Stepped {
    answer: u32,
    at: usize,
}

// What an addition answered, as a number.
fn added(answer: Result<Slot, Refusal>) -> u32
    ensures { result ≡ encode (book_add answer) }
{
    match answer {
        Ok(s) => s.0 as u32,
        Err(f) => 65536 + refusal_number(f),
    }
}

// What a call that does not take a slot answered, as a number.
fn accepted(answer: Result<(), Refusal>) -> u32
    ensures { result ≡ encode (book_change answer) }
{
    match answer {
        Ok(()) => 65536,
        Err(f) => 65536 + refusal_number(f),
    }
}

// Makes the call of a checklist.
fn call_checklist(table: &mut Table, which: ChecklistCall, number: u32) -> Result<(), Refusal>
    ensures { ChecklistEnds table.old (checklist_call which number) result table.new }
{
    match which {
        ChecklistCall::Open => open(table, number),
        ChecklistCall::FileSent => file_sent(table, number),
        ChecklistCall::FileSkipped => file_skipped(table, number),
        ChecklistCall::SkipWithdrawn => skip_withdrawn(table, number),
    }
}

// Makes the call at a place of the list, if one stands there.
fn step(table: &mut Table, words: &[u32], files: &[u8], at: usize) -> Option<Stepped>
    ensures { StepOf words.now files.now at table.old result table.new }
{
    let next = next_call(words, files, at)?;
    let (answer, behind) = match next {
        Next::Remove(slot, behind) => (accepted(remove(table, slot)), behind),
        Next::Add(head, from, middle, to) => (
            added(add(table, head, &words[from..middle], &words[middle..to])),
            to,
        ),
        Next::Load(from, to, behind) => (accepted(load(table, &files[from..to])), behind),
        Next::Checklist(which, number, behind) => {
            (accepted(call_checklist(table, which, number)), behind)
        },
        Next::Replace(slot, head, from, middle, to) => (
            accepted(replace(table, slot, head, &words[from..middle], &words[middle..to])),
            to,
        ),
        Next::Mute(slot, muted, behind) => (accepted(mute(table, slot, muted)), behind),
    };
    Some(Stepped { answer, at: behind })
}

// Makes the calls of the list from the empty table, as many as there are and as there is room for answers. A load is of
// a part of `files`.
pub fn replay(words: &[u32], files: &[u8], answers: &mut [u32]) -> Replayed
    ensures { Replays words.now files.now answers.old
        result answers.new }
{
    let mut table = Table::empty();
    let mut at: usize = 0;
    for i in 0..answers.len() {
        let Some(made) = step(&mut table, words, files, at) else {
            return Replayed { count: i, table };
        };
        answers[i] = made.answer;
        at = made.at;
    }
    Replayed {
        count: answers.len(),
        table,
    }
}
