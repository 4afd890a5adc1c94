// Questions 1 to 4 (specification 3.2), of the bare arguments of an addition, and of what a slot holds.
#![tactic(auto)]

ghost use Rattle.std.specs.Prelude.{◌≡◌, ◌+◌, eqb, leb, ltb, length, drop};
ghost use Rattle.theory.specs.Lists.{every, any, distinct};
ghost use Rattle.theory.specs.Questions.{first_no, rule_questions};
ghost use Rattle.theory.specs.Limits.{document};
ghost use Rattle.table.specs.Questions.{rule_from};
ghost use Rattle.questions.specs.Asked.{first_no_told};

use refusals::Refusal;
use table::Table;

pub mod clean; // clean.rt: what holds nothing stands as in the empty table; well-formed slots

// 1: Is the head below the number of atoms?
pub fn head_fits(head: u32) -> bool
    ensures { result ≡ ltb head document.atoms }
{
    (head as usize) < Table::ATOMS
}

// 2: Do both lists together have at most as many entries as a rule has room for? Each length is tested by itself first:
// a caller in another language may hand in lengths whose sum wraps.
pub fn few_entries(positives: &[u32], negatives: &[u32]) -> bool
    ensures { result ≡ leb (length positives.now + length negatives.now) document.entries }
{
    if positives.len() > Table::ENTRIES {
        return false;
    }
    if negatives.len() > Table::ENTRIES {
        return false;
    }
    positives.len() + negatives.len() <= Table::ENTRIES
}

// 3, of one list: Is every entry below the number of atoms? An entry is tested as a head is.
pub fn entries_fit(list: &[u32]) -> bool
    ensures { result ≡ every (λ x. ltb x document.atoms) list.now }
{
    list.iter().all(|&x| head_fits(x))
}

// 4, of one list: Is it without a repeated atom?
pub fn no_repeat(list: &[u32]) -> bool
    ensures { result ≡ distinct list.now }
{
    for (i, x) in list.iter().enumerate() {
        if list[i + 1..].contains(x) {
            return false;
        }
    }
    true
}

// Asks 1 to 4 of the rule that the arguments name: that it passes, or the refusal.
pub fn ask_rule(head: u32, positives: &[u32], negatives: &[u32]) -> Result<(), Refusal>
    ensures { first_no_told result ≡ first_no
        (rule_questions document (rule_from head positives.now negatives.now)) }
{
    if !head_fits(head) {
        return Err(Refusal::HeadTooLarge);
    }
    if !few_entries(positives, negatives) {
        return Err(Refusal::TooManyEntries);
    }
    if !entries_fit(positives) {
        return Err(Refusal::EntryTooLarge);
    }
    if !entries_fit(negatives) {
        return Err(Refusal::EntryTooLarge);
    }
    if !no_repeat(positives) {
        return Err(Refusal::RepeatedEntry);
    }
    if !no_repeat(negatives) {
        return Err(Refusal::RepeatedEntry);
    }
    Ok(())
}
