// What the slots keep, as a certificate: each slot is compared with what it has to keep, by the depths that the slots
// keep of the atoms of its rule.
#![tactic(auto)]

ghost use Rattle.std.specs.Prelude.{◌≡◌, true, ◌↔◌};
ghost use Rattle.theory.specs.Rules.{Bounded};
ghost use Rattle.theory.specs.Limits.{document};
ghost use Rattle.theory.specs.Sound.{SoundSlots};
ghost use Rattle.theory.specs.Certificate.{Confirmed};
ghost use Rattle.table.specs.Sets.{member, number};
ghost use Rattle.table.specs.Rules.{active_in, book_of, program_of};
ghost use Rattle.table.specs.Words.{rules_of, depth_at, spoiler_at};
ghost use Rattle.certificate.specs.Compared.{Compared};

use dues::due_in;
use table::arrays::arrays_of;
use table::sets::{has, number_of};
use table::slots::{depth_at, rule_at, spoiler_at};
use table::{Rule, Table};

// Does a slot with this rule keep what is due? And if the rule is unmuted and valid: is its head in, and not deeper than
// the rule's level? The heads that got their depths are in `given`.
fn compare(
    rule: Rule,
    depth: u16,
    spoiler: u16,
    flags: &[bool; Table::ATOMS],
    depths: &[u16; Table::ATOMS],
    given: &mut [bool; Table::ATOMS],
) -> bool
    ensures { Compared (member flags.now) (number depths.now) (active_in rule)
        given.old given.new depth spoiler result }
{
    let due = due_in(rule, flags, depths, given);
    if depth != due.depth {
        return false;
    }
    if spoiler != due.spoiler {
        return false;
    }
    if due.level == 0 {
        return true;
    }
    let head = rule.head;
    if !has(flags, head) {
        return false;
    }
    number_of(depths, head) as usize <= due.level
}

// Is every slot confirmed, by these in atoms and their depths?
fn confirmed(
    table: &[u16; Table::WORDS],
    flags: &[bool; Table::ATOMS],
    depths: &[u16; Table::ATOMS],
) -> bool
    requires { Bounded (program_of (rules_of table.now)) document.atoms }
    ensures { (result ≡ true) ↔ Confirmed (book_of (rules_of table.now))
        (member flags.now) (number depths.now)
        (depth_at table.now) (spoiler_at table.now) }
{
    let mut given: [bool; Table::ATOMS] = [false; Table::ATOMS];
    for i in 0..Table::SLOTS {
        let rule = rule_at(table, i);
        let depth = depth_at(table, i);
        let spoiler = spoiler_at(table, i);
        if !compare(rule, depth, spoiler, flags, depths, &mut given) {
            return false;
        }
    }
    true
}

// Does every slot keep what it has to keep?
pub fn certified(table: &[u16; Table::WORDS]) -> bool
    requires { Bounded (program_of (rules_of table.now)) document.atoms }
    ensures { (result ≡ true) ↔ SoundSlots (book_of (rules_of table.now))
        (depth_at table.now) (spoiler_at table.now) }
{
    let k = arrays_of(table);
    let flags = k.flags;
    let depths = k.depths;
    confirmed(table, &flags, &depths)
}
