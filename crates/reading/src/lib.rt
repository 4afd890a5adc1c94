// Labels read off a table: of one atom, and of all.
#![tactic(auto)]

ghost use Rattle.std.specs.Prelude.{◌≡◌, ◌∷◌, ℕ, ◌<◌, eqb, length};
ghost use Rattle.theory.specs.Lists.{any};
ghost use Rattle.theory.specs.Rules.{Bounded, passes, entries};
ghost use Rattle.theory.specs.Slots.{keeps?, occurs?};
ghost use Rattle.theory.specs.Limits.{document};
ghost use Rattle.table.specs.Sets.{member, number};
ghost use Rattle.table.specs.Rules.{program_of, slot_of};
ghost use Rattle.table.specs.Words.{rules_of};
ghost use Rattle.table.specs.Labels.{label_at, label_listed, label_of};
ghost use Rattle.reading.specs.Assembling.{label_for, Assembled};

use occurring::occurring;
use relations::{has_entry, has_head};
use table::arrays::arrays_of;
use table::sets::{has, number_of, slot_of};
use table::slots::{depth_at, rule_at};
use table::{Atom, Label, Rule, Slot, Table};

// Does a slot with this rule and this depth support the atom?
fn keeps(rule: Rule, depth: u16, a: Atom) -> bool
    ensures { result ≡ keeps? depth a.0 (slot_of rule) }
{
    if rule.state == 0 {
        return false;
    }
    if rule.head.0 != a.0 {
        return false;
    }
    depth != 0
}

// Does the atom occur in the slot's rule, as its head or an entry?
fn occurs_in(rule: Rule, a: Atom) -> bool
    ensures { result ≡ passes (λ q. any (eqb a.0) (q.head ∷ entries q)) (slot_of rule) }
{
    if has_head(rule, a) {
        return true;
    }
    has_entry(rule, a)
}

// Does the atom occur?
fn occurs(table: &[u16; Table::WORDS], a: Atom) -> bool
    ensures { result ≡ occurs? (program_of (rules_of table.now)) a.0 }
{
    for i in 0..Table::SLOTS {
        let rule = rule_at(table, i);
        if occurs_in(rule, a) {
            return true;
        }
    }
    false
}

// The label of an atom that is in, or occurs, or neither.
fn label_for(is_in: bool, occurs: bool, depth: u16, slot: Slot) -> Label
    ensures { result ≡ label_for is_in occurs depth slot.0 }
{
    if is_in {
        return Label::In(depth, slot);
    }
    if occurs {
        return Label::Out;
    }
    Label::absent()
}

// The label of an atom: in, if a slot with this head keeps a depth; occurrence is asked only if none does.
pub fn label_of(table: &[u16; Table::WORDS], a: Atom) -> Label
    ensures { label_of result ≡ label_at table.now a.0 }
{
    for i in 0..Table::SLOTS {
        let n = i as u16;
        let rule = rule_at(table, i);
        let depth = depth_at(table, i);
        if keeps(rule, depth, a) {
            return label_for(true, true, depth, Slot(n));
        }
    }
    let there = occurs(table, a);
    label_for(false, there, 0, Slot(0))
}

// Each atom's label from what was found of it.
fn assemble(
    model: &[bool; Table::ATOMS],
    occurs: &[bool; Table::ATOMS],
    depths: &[u16; Table::ATOMS],
    slots: &[u16; Table::ATOMS],
) -> [Label; Table::ATOMS]
    ensures { Assembled (member model.now) (member occurs.now)
        (number depths.now) (number slots.now) result }
{
    let mut labels: [Label; Table::ATOMS] = [Label::absent(); Table::ATOMS];
    for i in 0..Table::ATOMS {
        let n = i as u16;
        let a = Atom(n);
        let is_in = has(model, a);
        let there = has(occurs, a);
        let depth = number_of(depths, a);
        let slot = slot_of(slots, a);
        labels[i] = label_for(is_in, there, depth, slot);
    }
    labels
}

// The labels of all atoms.
pub fn labels_of(table: &[u16; Table::WORDS]) -> [Label; Table::ATOMS]
    requires { Bounded (program_of (rules_of table.now)) document.atoms }
    ensures { (length result ≡ document.atoms)
        × ((a : ℕ) → a < document.atoms → label_listed result a ≡ label_at table.now a) }
{
    let kept = arrays_of(table);
    let flags = kept.flags;
    let depths = kept.depths;
    let slots = kept.slots;
    let there = occurring(table);
    assemble(&flags, &there, &depths, &slots)
}
