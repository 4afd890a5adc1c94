// What a slot has to keep (specification 1.9), given the model of the unmuted rules and the depths of its atoms: the
// labelling writes it, and question 15 compares it with what is kept.
#![tactic(auto)]

ghost use Rattle.std.specs.Prelude.{◌≡◌};
ghost use Rattle.theory.specs.Labels.{place_over};
ghost use Rattle.table.specs.Sets.{member, number};
ghost use Rattle.table.specs.Rules.{rule_of, active_in, spoiler_of};
ghost use Rattle.dues.specs.Due.{DepthDue, DueIn};

use depths::level;
use rule::{positive_end, spoiler};
use table::sets::{has, mark, number_of};
use table::{Atom, Rule, Spoiler, Table};

// The level of the slot's rule if it is unmuted and valid, else 0; the depth and the place of the spoiler that the slot
// has to keep.
// The two numbers to keep stand apart: side by side they would be compared as one that was written as two, which waits
// for both.
#[derive(Clone, Copy)]
pub struct Due {
    pub depth: u16,
    pub level: usize,
    pub spoiler: u16,
}

// The place of the spoiler, counted from 1 over both lists; 0 if nothing spoils the rule.
fn place(rule: Rule, found: Option<Spoiler>) -> u16
    ensures { result ≡ place_over (rule_of rule) (spoiler_of found) }
{
    let Some(first) = found else {
        return 0;
    };
    match first {
        Spoiler::Positive(i, a) => i as u16 + 1,
        Spoiler::Negative(i, a) => {
            let p = positive_end(rule);
            p as u16 + i as u16 + 1
        }
    }
}

// The depth that a slot with a valid rule of this head and level has to keep: the head's, if this is the first slot
// that gives it, else 0. Heads that got theirs are in `given`.
fn depth_due(
    head: Atom,
    level: usize,
    depths: &[u16; Table::ATOMS],
    given: &mut [bool; Table::ATOMS],
) -> u16
    ensures { DepthDue (number depths.now) head.0 level given.old given.new result }
{
    let depth = number_of(depths, head);
    if depth as usize != level {
        return 0;
    }
    if has(given, head) {
        return 0;
    }
    mark(given, head);
    depth
}

// What the slot has to keep, where the slots below it were asked before, from the lowest on.
pub fn due_in(
    rule: Rule,
    model: &[bool; Table::ATOMS],
    depths: &[u16; Table::ATOMS],
    given: &mut [bool; Table::ATOMS],
) -> Due
    ensures { DueIn (member model.now) (number depths.now) (active_in rule)
        given.old given.new result }
{
    if rule.state != 1 {
        return Due {
            level: 0,
            depth: 0,
            spoiler: 0,
        };
    }
    let found = spoiler(rule, model);
    let at = place(rule, found);
    if at != 0 {
        return Due {
            level: 0,
            depth: 0,
            spoiler: at,
        };
    }
    let n = level(rule, depths);
    let head = rule.head;
    let depth = depth_due(head, n, depths, given);
    Due {
        level: n,
        depth: depth,
        spoiler: 0,
    }
}
