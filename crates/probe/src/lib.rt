// The engine's phases, exported for comparison runs and benchmarks. Not part of the library's interface. A refusal is a
// number here, since the structs cross to C.
#![tactic(auto)]

ghost use Rattle.std.specs.Prelude.{◌≡◌, true, ◌↔◌};
ghost use Rattle.table.specs.Words.{table_of};
ghost use Rattle.history_replay.specs.Replays.{Replays};
ghost use Rattle.probe.specs.Probes.{RulesFit, SoundProbe, LabelsProbe, RoundsProbe, no_rounds};

use history_replay::{Replayed, replay};
use labels::relabel;
use model::{Search, in_atoms};
use sound::sound;
use strata::strata;
use table::Table;
use well_formed::{no_two_equal, slots_well_formed};

// The table with what its slots have to keep, or as it came: `refused` is 0, or the number of the question that the
// rules answer no (15 or 7).
#[repr(C)]
#[derive(Clone, Copy)]
pub struct Relabelled {
    pub refused: u32,
    pub table: Table,
}

// How many rounds the search for the in atoms made in each layer, from the lowest on; 0 past the highest. `refused` is 0,
// or the number of the question that the rules answer no (15 or 7), and then all rounds are 0.
#[repr(C)]
#[derive(Clone, Copy)]
pub struct RoundsCounted {
    pub refused: u32,
    pub rounds: [u16; Search::STRATA],
}

// Question 15: 1 for yes, 0 for no.
#[unsafe(no_mangle)]
pub extern "C" fn probe_sound(table: Table) -> u32
    ensures { SoundProbe table result }
{
    u32::from(sound(&table.words))
}

// Are the table's rules sound by themselves?
fn fit(table: &[u16; Table::WORDS]) -> bool
    ensures { (result ≡ true) ↔ RulesFit (table_of table.now) }
{
    if !slots_well_formed(table) {
        return false;
    }
    no_two_equal(table)
}

// The table with what its slots have to keep, where its rules are sound by themselves.
#[unsafe(no_mangle)]
pub extern "C" fn probe_labels(table: Table) -> Relabelled
    ensures { LabelsProbe table result }
{
    if !fit(&table.words) {
        return Relabelled { refused: 15, table };
    }
    let mut words = table.words;
    if !relabel(&mut words) {
        return Relabelled { refused: 7, table };
    }
    Relabelled {
        refused: 0,
        table: Table { words },
    }
}

// No rounds, and the number of the question that was answered no.
fn no_rounds(refused: u32) -> RoundsCounted
    ensures { result ≡ record { refused = refused; rounds = no_rounds } }
{
    RoundsCounted {
        refused,
        rounds: [0; Search::STRATA],
    }
}

// The rounds of each layer of the table's rules, where these are sound by themselves.
#[unsafe(no_mangle)]
pub extern "C" fn probe_rounds(table: Table) -> RoundsCounted
    ensures { RoundsProbe table result }
{
    if !fit(&table.words) {
        return no_rounds(15);
    }
    let Some(of) = strata(&table.words) else {
        return no_rounds(7);
    };
    let search = in_atoms(&table.words, &of);
    let rounds = search.rounds;
    RoundsCounted { refused: 0, rounds }
}

// The calls of a list of numbers, made one after another from the empty table: how many there were, the table after
// them, and their answers from the start of the lent buffer. A load is of a part of `files`.
#[unsafe(no_mangle)]
pub extern "C" fn probe_replay(words: &[u32], files: &[u8], answers: &mut [u32]) -> Replayed
    ensures { Replays words.now files.now answers.old
        result answers.new }
{
    replay(words, files, answers)
}
