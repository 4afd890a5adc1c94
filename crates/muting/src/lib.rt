// Muting a rule: its slot keeps it, with a mark, so that a policy can be tried without it and the rule comes back as it
// was.
#![tactic(auto)]

ghost use Rattle.std.specs.Prelude.{◌≡◌};
ghost use Rattle.table.specs.Sound.{Sound};
ghost use Rattle.calls.specs.Ends.{MuteEnds};
ghost use Rattle.muting.specs.Marks.{slot_marked};

use calls::slot_asked;
use labels::relabel;
use refusals::Refusal;
use sound::sound;
use table::slots::{put_rule, rule_in};
use table::{Rule, Table};

// The slot with the mark set, on or off.
fn with_mark(slot: Rule, muted: bool) -> Rule
    ensures { result ≡ slot_marked muted slot }
{
    let mut changed = slot;
    changed.state = if muted { 2 } else { 1 };
    changed
}

// Sets the mark of the rule in a slot of a table that is sound, or refuses. No mark is refused after question 9, so the
// table itself is changed.
pub fn mute_in_sound(table: &mut Table, slot: u32, muted: bool) -> Result<(), Refusal>
    requires { Sound table.old }
    ensures { MuteEnds table.old slot muted result table.new }
{
    let s = slot_asked(&table.words, slot)?;
    let held = rule_in(&table.words, s);
    put_rule(&mut table.words, s, with_mark(held, muted));
    relabel(&mut table.words);
    Ok(())
}

// Sets the mark of the rule in the slot, on or off, or refuses by the first question answered no: 15, 8, 9. A table
// refused is left as it came. Setting what is set already is accepted and changes nothing.
pub fn mute(table: &mut Table, slot: u32, muted: bool) -> Result<(), Refusal>
    ensures { MuteEnds table.old slot muted result table.new }
{
    if !sound(&table.words) {
        return Err(Refusal::TableUnsound);
    }
    mute_in_sound(table, slot, muted)
}
