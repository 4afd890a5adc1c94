// The steps from an atom to those that it affects, as edges, and what they lead to.
#![tactic(auto)]

ghost use Rattle.std.specs.Prelude.{◌≡◌, true, eqb, ℕ, ◌+◌, ◌*◌, ◌≤◌, ◌<◌};
ghost use Rattle.theory.specs.Rules.{Bounded};
ghost use Rattle.theory.specs.Labels.{Supporting};
ghost use Rattle.theory.specs.Explanations.{Repercussion};
ghost use Rattle.theory.specs.Limits.{document};
ghost use Rattle.table.specs.Sets.{member, number, Flags};
ghost use Rattle.table.specs.Rules.{active_in, rule_of, active_of};
ghost use Rattle.table.specs.Words.{rules_of};
ghost use Rattle.repercussions.specs.Edges.{AddedEdge, Grown, FromEntries, Gives};

use reach::reach;
use rule::{negative_end, spoiler};
use table::sets::{has, slot_of};
use table::slots::rule_at;
use table::{Atom, Rule, Slot, Spoiler, Table};

// Room for all edges: a slot gives at most one for each entry of its rule.
const EDGES: usize = Table::SLOTS * Table::ENTRIES;

// One edge more, from `a` to `c`.
fn add_edge(from: &mut [u16; EDGES], to: &mut [u16; EDGES], count: usize, a: Atom, c: Atom) -> usize
    requires { count < document.slots * document.entries }
    ensures { AddedEdge a.0 c.0 from.old to.old count
        from.new to.new result }
{
    let f = &mut from[..];
    f[count] = a.0;
    let t = &mut to[..];
    t[count] = c.0;
    count + 1
}

// An edge from each entry of the rule to its head.
fn add_entries(rule: Rule, from: &mut [u16; EDGES], to: &mut [u16; EDGES], count: usize) -> usize
    requires { count + document.entries ≤ document.slots * document.entries }
    ensures { Grown (FromEntries (rule_of rule)) from.old to.old count
        from.new to.new result }
{
    let head = rule.head;
    let n = negative_end(rule);
    let mut at = count;
    for j in 0..n {
        let a = rule.entries[j];
        at = add_edge(from, to, at, a, head);
    }
    at
}

// Is this the slot that is kept for the atom?
fn is_kept(slots: &[u16; Table::ATOMS], a: Atom, slot: Slot) -> bool
    ensures { result ≡ eqb (number slots.now a.0) slot.0 }
{
    let kept = slot_of(slots, a);
    kept.0 == slot.0
}

// The edges that a slot gives. If its rule is the supporting rule of an in atom, one from each entry to the head; if
// the head is out, one from the atom of the rule's spoiler to the head. A muted rule gives none.
fn add_slot(
    rule: Rule,
    slot: Slot,
    flags: &[bool; Table::ATOMS],
    slots: &[u16; Table::ATOMS],
    from: &mut [u16; EDGES],
    to: &mut [u16; EDGES],
    count: usize,
) -> usize
    requires { count + document.entries ≤ document.slots * document.entries }
    ensures { Grown (Gives (member flags.now) (number slots.now) slot.0 (active_in rule))
        from.old to.old count from.new to.new result }
{
    if rule.state != 1 {
        return count;
    }
    let head = rule.head;
    if has(flags, head) {
        if !is_kept(slots, head, slot) {
            return count;
        }
        return add_entries(rule, from, to, count);
    }
    let found = spoiler(rule, flags);
    let Some(spoils) = found else {
        return count;
    };
    match spoils {
        Spoiler::Positive(_, a) => add_edge(from, to, count, a, head),
        Spoiler::Negative(_, a) => add_edge(from, to, count, a, head),
    }
}

// All atoms that this one affects, in one or more steps: `flags` has the in atoms, `slots` their supporting slots.
pub fn reached(
    table: &[u16; Table::WORDS],
    flags: &[bool; Table::ATOMS],
    slots: &[u16; Table::ATOMS],
    a: Atom,
) -> [bool; Table::ATOMS]
    requires { Bounded (active_of (rules_of table.now)) document.atoms × ((h : ℕ) → member flags.now h ≡ true
        → Supporting (active_of (rules_of table.now)) (member flags.now) h (number slots.now h)) }
    ensures { Flags result (Repercussion (active_of (rules_of table.now)) (member flags.now)
        a.0) }
{
    let mut from: [u16; EDGES] = [0; EDGES];
    let mut to: [u16; EDGES] = [0; EDGES];
    let mut count: usize = 0;
    for i in 0..Table::SLOTS {
        let rule = rule_at(table, i);
        let s = i as u16;
        count = add_slot(rule, Slot(s), flags, slots, &mut from, &mut to, count);
    }
    reach(&from, &to, count, a)
}
