// What the slots of a table keep, found anew for its rules: strata, in atoms and depths first, then a walk up the slots
// that writes what each has to keep.
#![tactic(auto)]

ghost use Rattle.theory.specs.Rules.{Bounded};
ghost use Rattle.theory.specs.Limits.{document};
ghost use Rattle.table.specs.Rules.{program_of};
ghost use Rattle.table.specs.Sets.{member, number};
ghost use Rattle.table.specs.Words.{rules_of};
ghost use Rattle.labels.specs.Labelling.{Relabelled};
ghost use Rattle.labels.specs.Keeping.{KeptBelow};

use depths::depths;
use dues::due_in;
use model::in_atoms;
use strata::strata;
use table::Table;
use table::slots::{keep, rule_at};

// Each slot keeps what is due, by the model of the unmuted rules and the depths of its atoms.
fn keep_dues(
    table: &mut [u16; Table::WORDS],
    model: &[bool; Table::ATOMS],
    depths: &[u16; Table::ATOMS],
)
    requires { Bounded (program_of (rules_of table.old)) document.atoms }
    ensures { KeptBelow table.old (member model.now) (number depths.now)
        document.slots table.new }
{
    let mut given: [bool; Table::ATOMS] = [false; Table::ATOMS];
    for i in 0..Table::SLOTS {
        let rule = rule_at(table, i);
        let due = due_in(rule, model, depths, &mut given);
        keep(table, i, due.depth, due.spoiler);
    }
}

// The slots keep what they have to, for the rules that they hold: is there no negative cycle? If there is one, nothing
// is written.
pub fn relabel(table: &mut [u16; Table::WORDS]) -> bool
    requires { Bounded (program_of (rules_of table.old)) document.atoms }
    ensures { Relabelled table.old table.new result }
{
    // a slice tells its length, which the contract promises: a lent array does not
    let whole = &table[..];
    let Some(of) = strata(table) else {
        return false;
    };
    let search = in_atoms(table, &of);
    let found = search.found;
    let order = search.order;
    let deep = depths(table, &found, &order);
    keep_dues(table, &found, &deep);
    true
}
