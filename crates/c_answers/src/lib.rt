// The calls' answers as they cross to C: structs of numbers, where `refused` is 0 or the number of the refusal. They are
// no Result and no enum, since C reads them by the fields of include/yeqontur.h.
#![tactic(auto)]

ghost use Rattle.std.specs.Prelude.{◌≡◌, Ok};
ghost use Rattle.c_answers.specs.Numbers.{crossed_add, crossed_remove, crossed_label, crossed_spoiler, crossed_list};
ghost use Rattle.refusals.specs.Refusals.{needed_by};
ghost use Rattle.c_answers.specs.Numbers.{crossed_change, crossed_complete, wide_rule, crossed_rule};
ghost use Rattle.queries.specs.RuleTold.{no_numbers};

use calls::RuleStatus;
use queries::RuleNumbers;
use refusals::{Refusal, refusal_number};
use table::{Label, Slot, Table};

// What a call that changes a table answers: the slot that an addition took, and the table handed back.
#[repr(C)]
#[derive(Clone, Copy)]
pub struct Change {
    pub refused: u32,
    pub slot: u32,
    pub table: Table,
}

// State 0 absent, 1 out, 2 in, with depth and supporting slot.
#[repr(C)]
#[derive(Clone, Copy)]
pub struct AtomLabel {
    pub refused: u32,
    pub state: u32,
    pub depth: u32,
    pub slot: u32,
}

// The rule of a slot: `muted` is 1 or 0, the entries are the positive list, then the negative one, then zeros. All is 0
// with a refusal.
#[repr(C)]
#[derive(Clone, Copy)]
pub struct SlotRule {
    pub refused: u32,
    pub head: u32,
    pub muted: u32,
    pub positives: u32,
    pub negatives: u32,
    pub entries: [u32; Table::ENTRIES],
}

// `spoiled` is 0 for a valid rule, 1 if the rule needs a positive entry that is out, 2 if it is blocked by a negative
// entry that is in, 3 if it is muted. `atom` is that entry, `place` where it stands in its list, which ascends, from 0;
// both are 0 where there is none.
#[repr(C)]
#[derive(Clone, Copy)]
pub struct RuleSpoiler {
    pub refused: u32,
    pub spoiled: u32,
    pub atom: u32,
    pub place: u32,
}

// How many entries were written; with refusal 11, how many are needed. The one struct that crosses with padding, behind
// `refused`: it is read by its fields, and is no part of a table.
#[repr(C)]
#[derive(Clone, Copy)]
pub struct Written {
    pub refused: u32,
    pub count: usize,
}

// What a call answers that has no answer named, and the table handed back.
#[repr(C)]
#[derive(Clone, Copy)]
pub struct Accepted {
    pub refused: u32,
    pub table: Table,
}

// `complete` is 1 if the last file's good is in, else 0.
#[repr(C)]
#[derive(Clone, Copy)]
pub struct Completeness {
    pub refused: u32,
    pub complete: u32,
}

// How many entries a refusal says are needed: with 11 alone.
fn needed(f: Refusal) -> usize
    ensures { result ≡ needed_by f }
{
    if let Refusal::BufferTooShort(many) = f {
        many
    } else {
        0
    }
}

// Each kind of answer as it crosses.

impl From<Result<usize, Refusal>> for Written {
    ghost from_gives = { λ answer result. result ≡ crossed_list answer };

    fn from(answer: Result<usize, Refusal>) -> Written {
        match answer {
            Ok(count) => Written { refused: 0, count },
            Err(f) => Written {
                refused: refusal_number(f),
                count: needed(f),
            },
        }
    }
}

// These three stay functions: the table after the call crosses too, and a removal's slot, while `From` takes one value.
pub fn crossed_add(answer: Result<Slot, Refusal>, after: Table) -> Change
    ensures { result ≡ crossed_add answer after }
{
    match answer {
        Ok(s) => Change {
            refused: 0,
            slot: s.0 as u32,
            table: after,
        },
        Err(f) => Change {
            refused: refusal_number(f),
            slot: 0,
            table: after,
        },
    }
}

pub fn crossed_remove(slot: u32, answer: Result<(), Refusal>, after: Table) -> Change
    ensures { result ≡ crossed_remove slot answer after }
{
    match answer {
        Ok(()) => Change {
            refused: 0,
            slot,
            table: after,
        },
        Err(f) => Change {
            refused: refusal_number(f),
            slot: 0,
            table: after,
        },
    }
}

impl From<Label> for AtomLabel {
    ghost from_gives = { λ label result. result ≡ crossed_label (Ok label) };

    fn from(label: Label) -> AtomLabel {
        match label {
            Label::Absent => AtomLabel {
                refused: 0,
                state: 0,
                depth: 0, // an absent atom has none
                slot: 0,
            },
            Label::Out => AtomLabel {
                refused: 0,
                state: 1,
                depth: 0,
                slot: 0,
            },
            Label::In(depth, slot) => AtomLabel {
                refused: 0,
                state: 2,
                depth: depth as u32,
                slot: slot.0 as u32,
            },
        }
    }
}

impl From<Result<Label, Refusal>> for AtomLabel {
    ghost from_gives = { λ answer result. result ≡ crossed_label answer };

    fn from(answer: Result<Label, Refusal>) -> AtomLabel {
        match answer {
            Ok(label) => label.into(),
            Err(f) => AtomLabel {
                refused: refusal_number(f),
                state: 0,
                depth: 0,
                slot: 0,
            },
        }
    }
}

// The numbers of a rule, and that of a refusal.
fn wide_rule(refused: u32, rule: RuleNumbers) -> SlotRule
    ensures { result ≡ wide_rule refused rule }
{
    SlotRule {
        refused,
        head: rule.head as u32,
        muted: u32::from(rule.muted),
        positives: rule.positives as u32,
        negatives: rule.negatives as u32,
        entries: rule.entries.map(u32::from),
    }
}

// The numbers of no rule.
fn no_numbers() -> RuleNumbers
    ensures { result ≡ no_numbers }
{
    RuleNumbers {
        head: 0,
        muted: false,
        positives: 0,
        negatives: 0,
        entries: [0; Table::ENTRIES],
    }
}

impl From<Result<RuleNumbers, Refusal>> for SlotRule {
    ghost from_gives = { λ answer result. result ≡ crossed_rule answer };

    fn from(answer: Result<RuleNumbers, Refusal>) -> SlotRule {
        match answer {
            Ok(rule) => wide_rule(0, rule),
            Err(f) => wide_rule(refusal_number(f), no_numbers()),
        }
    }
}

impl From<RuleStatus> for RuleSpoiler {
    ghost from_gives = { λ status result. result ≡ crossed_spoiler (Ok status) };

    fn from(status: RuleStatus) -> RuleSpoiler {
        match status {
            RuleStatus::Valid => RuleSpoiler {
                refused: 0,
                spoiled: 0,
                place: 0,
                atom: 0,
            },
            RuleStatus::Muted => RuleSpoiler {
                refused: 0,
                spoiled: 3,
                place: 0,
                atom: 0,
            },
            RuleStatus::Positive(i, a) => RuleSpoiler {
                refused: 0,
                spoiled: 1,
                place: i as u32,
                atom: a.0 as u32,
            },
            RuleStatus::Negative(i, a) => RuleSpoiler {
                refused: 0,
                spoiled: 2,
                place: i as u32,
                atom: a.0 as u32,
            },
        }
    }
}

impl From<Result<RuleStatus, Refusal>> for RuleSpoiler {
    ghost from_gives = { λ answer result. result ≡ crossed_spoiler answer };

    fn from(answer: Result<RuleStatus, Refusal>) -> RuleSpoiler {
        match answer {
            Ok(status) => status.into(),
            Err(f) => RuleSpoiler {
                refused: refusal_number(f),
                spoiled: 0,
                place: 0,
                atom: 0,
            },
        }
    }
}

pub fn crossed_change(answer: Result<(), Refusal>, after: Table) -> Accepted
    ensures { result ≡ crossed_change answer after }
{
    match answer {
        Ok(()) => Accepted {
            refused: 0,
            table: after,
        },
        Err(f) => Accepted {
            refused: refusal_number(f),
            table: after,
        },
    }
}

impl From<Result<bool, Refusal>> for Completeness {
    ghost from_gives = { λ answer result. result ≡ crossed_complete answer };

    fn from(answer: Result<bool, Refusal>) -> Completeness {
        match answer {
            Ok(complete) => Completeness {
                refused: 0,
                complete: u32::from(complete),
            },
            Err(f) => Completeness {
                refused: refusal_number(f),
                complete: 0,
            },
        }
    }
}
