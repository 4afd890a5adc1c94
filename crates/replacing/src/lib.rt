// Replacing a rule: a removal and an addition in one call, so that a refusal keeps the old rule.
#![tactic(auto)]

ghost use Rattle.std.specs.Prelude.{◌≡◌};
ghost use Rattle.std.proofs.Math.Option.{none};
ghost use Rattle.theory.specs.Rules.{all};
ghost use Rattle.theory.specs.Questions.{first_no, slot_questions};
ghost use Rattle.theory.specs.Limits.{document};
ghost use Rattle.table.specs.Questions.{rule_from};
ghost use Rattle.table.specs.Sound.{Sound};
ghost use Rattle.calls.specs.Ends.{held, ReplaceEnds};

use calls::slot_asked;
use labels::relabel;
use new_rule::{holds_rule, make_rule};
use questions::ask_rule;
use refusals::Refusal;
use sound::sound;
use table::slots::put_rule;
use table::{Rule, Slot, Table};

// Replaces the rule that a slot of a sound table holds. The new one is judged against a copy of the table without it,
// so that a table refused is the one that came.
fn replace_held(
    table: &mut Table,
    slot: Slot,
    head: u32,
    positives: &[u32],
    negatives: &[u32],
) -> Result<(), Refusal>
    requires sound { Sound table.old }
    requires slot_value { first_no (slot_questions document (all (held table.old)) slot.0) ≡ none }
    ensures { ReplaceEnds table.old slot.0
        (rule_from head positives.now negatives.now) result table.new }
{
    ask_rule(head, positives, negatives)?;
    let rule = make_rule(head, positives, negatives);
    let mut changed = table.words;
    put_rule(&mut changed, slot, Rule::free());
    if holds_rule(&changed, rule) {
        return Err(Refusal::SameRule);
    }
    put_rule(&mut changed, slot, rule);
    if !relabel(&mut changed) {
        return Err(Refusal::NegativeCycle);
    }
    table.words = changed;
    Ok(())
}

// Replaces the rule in a slot of a table that is sound, or refuses.
pub fn replace_in_sound(
    table: &mut Table,
    slot: u32,
    head: u32,
    positives: &[u32],
    negatives: &[u32],
) -> Result<(), Refusal>
    requires { Sound table.old }
    ensures { ReplaceEnds table.old slot (rule_from head positives.now negatives.now)
        result table.new }
{
    let s = slot_asked(&table.words, slot)?;
    replace_held(table, s, head, positives, negatives)
}

// Puts the rule that the arguments name, in whatever order, into the slot in place of the rule there, unmuted; or
// refuses by the first question answered no. A table refused is left as it came, the old rule in its slot.
pub fn replace(
    table: &mut Table,
    slot: u32,
    head: u32,
    positives: &[u32],
    negatives: &[u32],
) -> Result<(), Refusal>
    ensures { ReplaceEnds table.old slot (rule_from head positives.now negatives.now)
        result table.new }
{
    if !sound(&table.words) {
        return Err(Refusal::TableUnsound);
    }
    replace_in_sound(table, slot, head, positives, negatives)
}
