// A list of calls written as numbers, read call by call.
#![tactic(auto)]

ghost use Rattle.history_words.specs.Reading.{FindRule, NextLoad, NextMute, NextChecklist, NextOf};

// Which call of a checklist.
#[derive(Clone, Copy)]
pub enum ChecklistCall {
    Open,
    FileSent,
    FileSkipped,
    SkipWithdrawn,
}

// The call at a place: a removal and the place behind it, an addition with the ends of its two lists, a load with
// the ends of its file and the place behind it, a call of a checklist: which, its number and the place behind it; a
// replacement of a slot's rule, with the ends of the new one's lists; or a muting of a slot, on or off, and the place
// behind it.
#[derive(Clone, Copy)]
pub enum Next {
    Remove(u32, usize),
    Add(u32, usize, usize, usize),
    Load(usize, usize, usize),
    Checklist(ChecklistCall, u32, usize),
    Replace(u32, u32, usize, usize, usize),
    Mute(u32, bool, usize),
}

// The rule at a place: its head, where its positives begin, where its negatives do, and where these end.
#[derive(Clone, Copy)]
struct RuleWords {
    head: u32,
    from: usize,
    middle: usize,
    to: usize,
}

// Reads the load at a place of the list whose kind says that one stands there.
fn next_load(words: &[u32], files: &[u8], at: usize) -> Option<Next>
    ensures { NextLoad words.now files.now at result }
{
    let n = words.len();
    if at > n {
        return None;
    }
    if n - at < 3 {
        return None;
    }
    let from = words[at + 1] as usize;
    let to = words[at + 2] as usize;
    if from > to {
        return None;
    }
    if to > files.len() {
        return None;
    }
    Some(Next::Load(from, to, at + 3))
}

// Reads the muting at a place of the list whose kind says that one stands there.
fn next_mute(words: &[u32], at: usize) -> Option<Next>
    ensures { NextMute words.now at result }
{
    let n = words.len();
    if at > n {
        return None;
    }
    if n - at < 3 {
        return None;
    }
    let mark = words[at + 2];
    Some(Next::Mute(words[at + 1], mark != 0, at + 3))
}

// The call of a checklist that a kind says, if it says one.
fn next_checklist(kind: u32, number: u32, behind: usize) -> Option<Next>
    ensures { NextChecklist kind number behind result }
{
    let which = match kind {
        3 => ChecklistCall::Open,
        4 => ChecklistCall::FileSent,
        5 => ChecklistCall::FileSkipped,
        6 => ChecklistCall::SkipWithdrawn,
        _ => return None,
    };
    Some(Next::Checklist(which, number, behind))
}

// Finds the rule whose head stands at a place of the list, if it isn't cut short: an addition's and a replacement's
// words tell it alike.
fn find_rule(words: &[u32], at: usize) -> Option<RuleWords>
    ensures { FindRule words.now at result }
{
    let n = words.len();
    if at > n {
        return None;
    }
    if n - at < 3 {
        return None;
    }
    let from = at + 3;
    let positives = words[at + 1] as usize;
    if n - from < positives {
        return None;
    }
    let middle = from + positives;
    let negatives = words[at + 2] as usize;
    if n - middle < negatives {
        return None;
    }
    Some(RuleWords {
        head: words[at],
        from,
        middle,
        to: middle + negatives,
    })
}

// Reads the call at a place of the list. The kinds 0 to 8 stay numbers: the list crosses from C.
pub fn next_call(words: &[u32], files: &[u8], at: usize) -> Option<Next>
    ensures { NextOf words.now files.now at result }
{
    let n = words.len();
    if at > n {
        return None;
    }
    if n - at < 2 {
        return None;
    }
    let kind = words[at];
    let number = words[at + 1];
    match kind {
        0 => Some(Next::Remove(number, at + 2)),
        1 => {
            let rule = find_rule(words, at + 1)?;
            Some(Next::Add(rule.head, rule.from, rule.middle, rule.to))
        },
        2 => next_load(words, files, at),
        7 => {
            let rule = find_rule(words, at + 2)?;
            Some(Next::Replace(number, rule.head, rule.from, rule.middle, rule.to))
        },
        8 => next_mute(words, at),
        _ => next_checklist(kind, number, at + 2),
    }
}
