// The atoms that an atom's label rests on, gathered along the positive entries of supporting rules.
#![tactic(auto)]

ghost use Rattle.std.specs.Prelude.{◌≡◌, ◌≤◌, length};
ghost use Rattle.theory.specs.Limits.{document};
ghost use Rattle.table.specs.Sets.{member, number};
ghost use Rattle.table.specs.Words.{rules_of};
ghost use Rattle.reason_atoms.specs.SupportEntries.{positives_if, EntriesOf, entry_index, SupportEntry};
ghost use Rattle.reason_atoms.specs.SupportEntries.{Fits, CopiedTo};
ghost use Rattle.reason_atoms.specs.Gathering.{Gathers};

use rule::positive_end;
use table::sets::{has, mark, number_of, slot_of};
use table::slots::rule_in;
use table::{Atom, Rule, Table};

// Room for the positive entries of each atom's supporting rule.
pub const ALL_ENTRIES: usize = Table::ATOMS * Table::ENTRIES;

// The positive entries of each in atom's supporting rule: how many, and from the atom's place on the entries.
#[derive(Clone, Copy)]
pub struct Entries {
    pub counts: [u16; Table::ATOMS],
    pub entries: [u16; ALL_ENTRIES],
}

// How many positive entries the supporting rule of an atom has: 0 where the atom is not in.
fn entry_count(is_in: bool, rule: Rule) -> usize
    ensures { (result ≡ length (positives_if is_in rule)) × (result ≤ document.entries) }
{
    if !is_in {
        return 0;
    }
    positive_end(rule)
}

// Copies the first n entries of the rule to the places from `from` on.
fn copy_entries(rule: Rule, n: usize, from: usize, entries: &mut [u16; ALL_ENTRIES])
    requires { Fits n from entries.old }
    ensures { CopiedTo rule.entries n from entries.old entries.new }
{
    for j in 0..n {
        let x = rule.entries[j];
        entries[from + j] = x.0;
    }
}

// The positive entries of each in atom's supporting rule: `flags` has the in atoms, `slots` their supporting slots.
pub fn support_entries(
    table: &[u16; Table::WORDS],
    flags: &[bool; Table::ATOMS],
    slots: &[u16; Table::ATOMS],
) -> Entries
    requires { length flags.now ≡ document.atoms }
    ensures { EntriesOf (rules_of table.now) (member flags.now)
        (number slots.now) result.counts result.entries }
{
    let mut counts: [u16; Table::ATOMS] = [0; Table::ATOMS];
    let mut entries: [u16; ALL_ENTRIES] = [0; ALL_ENTRIES];
    for i in 0..Table::ATOMS {
        let k = i as u16;
        let is_in = has(flags, Atom(k));
        let s = slot_of(slots, Atom(k));
        let rule = rule_in(table, s);
        let n = entry_count(is_in, rule);
        copy_entries(rule, n, i * Table::ENTRIES, &mut entries);
        counts[i] = n as u16;
    }
    Entries { counts, entries }
}

// Entry j of the entries copied for the atom.
fn support_entry(entries: &[u16; ALL_ENTRIES], a: Atom, j: u16) -> Atom
    ensures { result.0 ≡ number entries.now (entry_index a.0 j) }
{
    let s = &entries[..];
    let k = a.0 as usize * Table::ENTRIES + j as usize;
    if k < s.len() { Atom(s[k]) } else { Atom(0) }
}

// Gathers the atom and, of the entries copied for it, each that is of smaller depth and not gathered yet. The depth falls
// from call to call. On a sound table every copied entry is of smaller depth, so that none is left out.
pub fn gather(
    a: Atom,
    depth: u16,
    counts: &[u16; Table::ATOMS],
    entries: &[u16; ALL_ENTRIES],
    depths: &[u16; Table::ATOMS],
    seen: &mut [bool; Table::ATOMS],
)
    ensures { Gathers (SupportEntry counts.now entries.now) (number depths.now) a.0 depth
        seen.old seen.new }
{
    mark(seen, a);
    for j in 0..number_of(counts, a) {
        let x = support_entry(entries, a, j);
        let d = number_of(depths, x);
        if d >= depth {
            continue;
        }
        if has(seen, x) {
            continue;
        }
        gather(x, d, counts, entries, depths, seen);
    }
}
