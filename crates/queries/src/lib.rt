// The calls that ask a table and change nothing. Each asks question 15 (specification 3.4) first, so that what
// the table keeps is what is defined, then those of its argument; the first answered no is the refusal.
#![tactic(auto)]

ghost use Rattle.table.specs.Words.{table_of};
ghost use Rattle.calls.specs.Ends.{LabelEnds, SpoilerEnds};
ghost use Rattle.calls.specs.Ends.{JustificationsEnd, ConsequencesEnd, RepercussionsEnd};
ghost use Rattle.queries.specs.RuleTold.{RuleEnds};

use calls::{RuleStatus, ask_atom, ask_slot};
use reading::label_of;
use refusals::Refusal;
use relations::{following, justifying};
use repercussions::reached;
use table::arrays::arrays_of;
use table::slots::{rule_in, spoiler_at};
use table::{Label, Table};
use written_lists::write_marked;

mod answers; // answers.rt: one spoiler, one rule, told as an answer

// A rule told as numbers: its head, whether it is muted, how long its lists are, and its entries: the positive list,
// then the negative list, then zeros.
#[derive(Clone, Copy)]
pub struct RuleNumbers {
    pub head: u16,
    pub muted: bool,
    pub positives: u16,
    pub negatives: u16,
    pub entries: [u16; Table::ENTRIES],
}

// The label of an atom: absent, out, or in with depth and supporting slot. Asks 15, 10.
pub fn label(table: &[u16; Table::WORDS], atom: u32) -> Result<Label, Refusal>
    ensures { LabelEnds (table_of table.now) atom result }
{
    let a = ask_atom(table, atom)?; // a refusal tells no label
    Ok(label_of(table, a))
}

// The spoiler of the rule in a slot, or that the rule is valid, or that it is muted. Asks 15, 8, 9.
pub fn spoiler(table: &[u16; Table::WORDS], slot: u32) -> Result<RuleStatus, Refusal>
    ensures { SpoilerEnds (table_of table.now) slot result }
{
    let s = ask_slot(table, slot)?;
    let rule = rule_in(table, s);
    let place = spoiler_at(table, s.0 as usize);
    Ok(answers::tell_rule(rule, place))
}

// The rule in a slot, with its mark. Asks 15, 8, 9.
pub fn rule(table: &[u16; Table::WORDS], slot: u32) -> Result<RuleNumbers, Refusal>
    ensures { RuleEnds (table_of table.now) slot result }
{
    let s = ask_slot(table, slot)?; // a refusal tells no rule
    let held = rule_in(table, s);
    Ok(answers::tell_numbers(held))
}

// Justifications of an atom: the slots of the rules with this head, muted or not, ascending from the buffer's start;
// their count is answered, and later entries stay. Asks 15, 10, 11.
pub fn justifications(
    table: &[u16; Table::WORDS],
    atom: u32,
    buffer: &mut [u32],
) -> Result<usize, Refusal>
    ensures { JustificationsEnd (table_of table.now) atom buffer.old result
        buffer.new }
{
    let a = ask_atom(table, atom)?;
    write_marked(&justifying(table, a), buffer)
}

// Consequences of an atom: the heads of the rules, muted or not, with this entry, written and counted likewise. Asks
// 15, 10, 11.
pub fn consequences(
    table: &[u16; Table::WORDS],
    atom: u32,
    buffer: &mut [u32],
) -> Result<usize, Refusal>
    ensures { ConsequencesEnd (table_of table.now) atom buffer.old result
        buffer.new }
{
    let a = ask_atom(table, atom)?;
    write_marked(&following(table, a), buffer)
}

// Repercussions of an atom: all atoms that it affects in one or more steps, written and counted likewise. Asks 15, 10,
// 11.
pub fn repercussions(
    table: &[u16; Table::WORDS],
    atom: u32,
    buffer: &mut [u32],
) -> Result<usize, Refusal>
    ensures { RepercussionsEnd (table_of table.now) atom buffer.old result
        buffer.new }
{
    let a = ask_atom(table, atom)?;
    let k = arrays_of(table);
    write_marked(&reached(table, &k.flags, &k.slots, a), buffer)
}
