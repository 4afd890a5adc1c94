// Depths: rounds over the slots, in which the number of a head falls to the level of a valid rule of it.
#![tactic(auto)]

ghost use Rattle.std.specs.Prelude.{◌≡◌, true, ◌⊎◌, ◌↔◌, ◌<◌};
ghost use Rattle.theory.specs.Lists.{every};
ghost use Rattle.theory.specs.Rules.{Bounded};
ghost use Rattle.theory.specs.Models.{Admissible};
ghost use Rattle.theory.specs.Certificate.{level};
ghost use Rattle.theory.specs.Limits.{document};
ghost use Rattle.table.specs.Sets.{member, number};
ghost use Rattle.table.specs.Rules.{active_of, active_in, rule_of};
ghost use Rattle.table.specs.Words.{rules_of};
ghost use Rattle.depths.specs.Numbers.{DepthsOf, within};
ghost use Rattle.depths.specs.Passes.{Found, Lowered};

use rule::{positive_end, valid};
use table::sets::{number_of, set_number};
use table::slots::{rule_at, rule_in};
use table::turns::slot_at;
use table::{Atom, Rule, Slot, Table};

// No depth is above ATOMS: an in atom has a derivation of at most as many levels as there are in atoms.
const PAST_DEPTHS: u16 = Table::ATOMS as u16 + 1;

// As many numbers as a hint of an order has: how many slots, then these slots.
pub const ORDER: usize = Table::SLOTS + 1;

// Has every positive entry of the rule a depth (not 0), and one below the limit?
pub fn below(rule: Rule, depths: &[u16; Table::ATOMS], limit: u16) -> bool
    ensures { result ≡ every (within (number depths.now) limit) (rule_of rule).positives }
{
    let n = positive_end(rule);
    for &a in &rule.entries[..n] {
        let d = number_of(depths, a);
        if d == 0 {
            return false;
        }
        if d >= limit {
            return false;
        }
    }
    true
}

// The level of a rule: 1 more than the greatest depth of its positive entries.
pub fn level(rule: Rule, depths: &[u16; Table::ATOMS]) -> usize
    ensures { result ≡ level (number depths.now) (rule_of rule) }
{
    let n = positive_end(rule);
    let mut most: usize = 0;
    for &a in &rule.entries[..n] {
        let d = number_of(depths, a);
        most = most.max(d as usize);
    }
    most + 1
}

// Does an atom get a smaller number? One of number 0 has none yet.
fn falls(number: u16, to: usize) -> bool
    ensures { (result ≡ true) ↔ ((number ≡ 0) ⊎ (to < number)) }
{
    if number == 0 {
        return true;
    }
    to < number as usize
}

// The number of the slot's head falls to the level of its rule, if that is unmuted and valid, and smaller: did it? A
// level above ATOMS is no depth.
fn lower(rule: Rule, model: &[bool; Table::ATOMS], found: &mut [u16; Table::ATOMS]) -> bool
    ensures { Lowered (member model.now) document.atoms (active_in rule) rule.head.0
        found.old found.new result }
{
    if rule.state != 1 {
        return false;
    }
    if !below(rule, found, PAST_DEPTHS) {
        return false;
    }
    let to = level(rule, found);
    if to > Table::ATOMS {
        return false;
    }
    let head = rule.head;
    let number = number_of(found, head);
    if !falls(number, to) {
        return false;
    }
    if !valid(rule, model) {
        return false;
    }
    set_number(found, head, to as u16);
    true
}

// The slots that the hint names lower the numbers of their heads, in its order: any slots in any order will do.
fn lower_first(
    table: &[u16; Table::WORDS],
    model: &[bool; Table::ATOMS],
    order: &[u16; ORDER],
    found: &mut [u16; Table::ATOMS],
)
    requires { Bounded (active_of (rules_of table.now)) document.atoms
        × Admissible (active_of (rules_of table.now)) (member model.now)
        × Found (active_of (rules_of table.now)) (member model.now) document.atoms 0 found.old }
    ensures { Found (active_of (rules_of table.now)) (member model.now) document.atoms 0
        found.new }
{
    for &s in order[1..].iter().take(order[0] as usize) {
        let rule = rule_in(table, Slot(s));
        lower(rule, model, found);
    }
}

// The depth of each in atom, 0 for every other: rounds over the slots, upwards and downwards in turn, up to the first
// that lowers none. The slots that a hint names come first, in its order: where the slots are those that added the in
// atoms, in the order in which they did, few rounds are left.
pub fn depths(
    table: &[u16; Table::WORDS],
    model: &[bool; Table::ATOMS],
    order: &[u16; ORDER],
) -> [u16; Table::ATOMS]
    requires { Bounded (active_of (rules_of table.now)) document.atoms
        × Admissible (active_of (rules_of table.now)) (member model.now) }
    ensures { DepthsOf (active_of (rules_of table.now)) (member model.now) (number result) }
{
    let mut found: [u16; Table::ATOMS] = [0; Table::ATOMS];
    lower_first(table, model, order, &mut found);
    let mut round: usize = 0;
    let mut lowered = true;
    while lowered {
        lowered = false;
        let down = round % 2 == 1;
        for i in 0..Table::SLOTS {
            let s = slot_at(down, i);
            let rule = rule_at(table, s);
            let fell = lower(rule, model, &mut found);
            lowered = fell | lowered;
        }
        round += 1;
    }
    found
}
