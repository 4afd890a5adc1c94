// What stands in a slot, read off the table's numbers and written into them. Only these leaves know the order of a
// slot's numbers (and crates/order, which promises nothing of what it finds).
ghost use Rattle.std.specs.Prelude.{◌≡◌, ◌+◌, ◌≤◌, ◌<◌, length, get_or, set};
ghost use Rattle.std.proofs.Math.Seq.{paste};
ghost use Rattle.theory.specs.Limits.{document};
ghost use Rattle.table.specs.Rules.{past_rule};
ghost use Rattle.table.specs.Words.{words, rule_at, rules_of, depth_at, spoiler_at, rule_words, with_kept};
ghost use Rattle.table.specs.Clean.{free_rule};

use super::{Atom, Rule, Slot, Table};

// What the slot's numbers say of its rule.
fn read_rule(table: &[u16; Table::WORDS], slot: usize) -> Rule
    requires { slot < document.slots }
    ensures { result ≡ rule_at table.now slot }
{
    let s = &table[..];
    let b = Table::WIDTH * slot;
    let entries = [
        Atom(s[b + 4]),
        Atom(s[b + 5]),
        Atom(s[b + 6]),
        Atom(s[b + 7]),
        Atom(s[b + 8]),
        Atom(s[b + 9]),
        Atom(s[b + 10]),
        Atom(s[b + 11]),
    ];
    Rule {
        state: s[b],
        head: Atom(s[b + 1]),
        positives: s[b + 2],
        negatives: s[b + 3],
        entries: entries,
    }
}

// The rule of a slot of the table.
pub fn rule_at(table: &[u16; Table::WORDS], slot: usize) -> Rule
    requires { slot < document.slots }
    ensures { result ≡ get_or (rules_of table.now) slot past_rule }
{
    read_rule(table, slot)
}

// The same of any slot: one past the end reads as free.
pub fn rule_in(table: &[u16; Table::WORDS], s: Slot) -> Rule
    ensures { result ≡ get_or (rules_of table.now) s.0 free_rule }
{
    let i = s.0 as usize;
    if i < Table::SLOTS {
        return rule_at(table, i);
    }
    Rule::free()
}

// The depth that a slot of the table keeps.
pub fn depth_at(table: &[u16; Table::WORDS], slot: usize) -> u16
    requires { slot < document.slots }
    ensures { result ≡ depth_at table.now slot }
{
    let s = &table[..];
    s[Table::WIDTH * slot + 12]
}

// The place of the spoiler that a slot of the table keeps.
pub fn spoiler_at(table: &[u16; Table::WORDS], slot: usize) -> u16
    requires { slot < document.slots }
    ensures { result ≡ spoiler_at table.now slot }
{
    let s = &table[..];
    s[Table::WIDTH * slot + 13]
}

// The numbers of a rule.
fn rule_words(rule: Rule) -> [u16; 12]
    ensures { result ≡ rule_words rule }
{
    let e0 = rule.entries[0];
    let e1 = rule.entries[1];
    let e2 = rule.entries[2];
    let e3 = rule.entries[3];
    let e4 = rule.entries[4];
    let e5 = rule.entries[5];
    let e6 = rule.entries[6];
    let e7 = rule.entries[7];
    [
        rule.state,
        rule.head.0,
        rule.positives,
        rule.negatives,
        e0.0,
        e1.0,
        e2.0,
        e3.0,
        e4.0,
        e5.0,
        e6.0,
        e7.0,
    ]
}

// Twelve numbers come in from a place on.
fn paste(table: &mut [u16; Table::WORDS], b: usize, part: &[u16; 12])
    requires { b + 12 ≤ words }
    ensures { (table.new ≡ paste table.old b part.now 12)
        × (length table.old ≡ words) }
{
    let w = &mut table[..];
    let from = &part[..];
    for j in 0..12 {
        w[b + j] = from[j];
    }
}

// The slot holds the rule; of what is kept nothing is promised. Past the end nothing is written.
pub fn put_rule(table: &mut [u16; Table::WORDS], s: Slot, rule: Rule)
    ensures { rules_of table.new ≡ set (rules_of table.old) s.0 rule }
{
    let i = s.0 as usize;
    if i < Table::SLOTS {
        let part = rule_words(rule);
        paste(table, Table::WIDTH * i, &part);
    }
}

// A slot of the table keeps the depth and the place of the spoiler.
pub fn keep(table: &mut [u16; Table::WORDS], slot: usize, depth: u16, spoiler: u16)
    requires { slot < document.slots }
    ensures { (table.new ≡ with_kept table.old slot depth spoiler)
        × (length table.old ≡ words) }
{
    let s = &mut table[..];
    let b = Table::WIDTH * slot;
    s[b + 12] = depth;
    s[b + 13] = spoiler;
}
