// Which atoms occur: the head and the entries of each rule, muted or not, come into a set.
#![tactic(auto)]

ghost use Rattle.theory.specs.Rules.{Bounded, entries};
ghost use Rattle.theory.specs.Limits.{document};
ghost use Rattle.table.specs.Sets.{member};
ghost use Rattle.table.specs.Rules.{program_of, slot_of, rule_of};
ghost use Rattle.table.specs.Words.{rules_of};
ghost use Rattle.occurring.specs.Occurrence.{OccurringIn};
ghost use Rattle.occurring.specs.Marks.{atoms, Marked};

use rule::negative_end;
use table::sets::mark;
use table::slots::rule_at;
use table::{Atom, Rule, Table};

// The entries of the rule come into the set.
fn mark_entries(rule: Rule, flags: &mut [bool; Table::ATOMS])
    ensures { Marked (entries (rule_of rule)) flags.old flags.new }
{
    let n = negative_end(rule);
    for &a in &rule.entries[..n] {
        mark(flags, a);
    }
}

// The atoms of the slot's rule, if it holds one, come into the set.
fn mark_rule(rule: Rule, flags: &mut [bool; Table::ATOMS])
    ensures { Marked (atoms (slot_of rule)) flags.old flags.new }
{
    if rule.state == 0 {
        return;
    }
    let head = rule.head;
    mark(flags, head);
    mark_entries(rule, flags);
}

// Which atoms occur.
pub fn occurring(table: &[u16; Table::WORDS]) -> [bool; Table::ATOMS]
    requires { Bounded (program_of (rules_of table.now)) document.atoms }
    ensures { OccurringIn (program_of (rules_of table.now)) (member result) }
{
    let mut flags: [bool; Table::ATOMS] = [false; Table::ATOMS];
    for i in 0..Table::SLOTS {
        let rule = rule_at(table, i);
        mark_rule(rule, &mut flags);
    }
    flags
}
