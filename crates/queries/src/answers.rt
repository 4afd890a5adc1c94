// One spoiler, one rule, told as an answer.
ghost use Rattle.std.specs.Prelude.{◌≡◌, cond, ◌≤◌, leb, length, Ok};
ghost use Rattle.theory.specs.Rules.{entries};
ghost use Rattle.theory.specs.Slots.{spoiler_at_place};
ghost use Rattle.table.specs.Rules.{rule_of};
ghost use Rattle.theory.specs.Limits.{document};
ghost use Rattle.calls.specs.Answers.{tell_spoiler};
ghost use Rattle.calls.specs.declared.RuleStatus.TheVariants.{Muted};
ghost use Rattle.queries.specs.RuleTold.{plain_numbers};

use super::RuleNumbers;
use calls::RuleStatus;
use rule::positive_end;
use table::Rule;

// The answer that tells the spoiler at a place of a rule's lists, counted from 1 over both; at 0 there is none.
fn tell_spoiler(rule: Rule, place: u16) -> RuleStatus
    requires { place ≤ length (entries (rule_of rule)) }
    ensures { Ok result ≡ tell_spoiler (spoiler_at_place (rule_of rule) place) }
{
    if place == 0 {
        return RuleStatus::Valid;
    }
    let k = place as usize - 1;
    let a = rule.entries[k];
    let n = positive_end(rule);
    if k < n {
        return RuleStatus::Positive(k as u8, a);
    }
    RuleStatus::Negative((k - n) as u8, a)
}

// The answer that tells of the rule in a slot that keeps this place: that it is muted, or its spoiler.
pub fn tell_rule(rule: Rule, place: u16) -> RuleStatus
    requires { place ≤ length (entries (rule_of rule)) }
    ensures { Ok result ≡ cond (leb 2 rule.state) (Ok Muted) (tell_spoiler (spoiler_at_place (rule_of rule) place)) }
{
    if rule.state > 1 {
        return RuleStatus::Muted;
    }
    tell_spoiler(rule, place)
}

// The numbers that stand in a slot for its rule.
pub fn tell_numbers(rule: Rule) -> RuleNumbers
    ensures { (result ≡ plain_numbers rule) × (length rule.entries ≡ document.entries) }
{
    let e0 = rule.entries[0];
    let e1 = rule.entries[1];
    let e2 = rule.entries[2];
    let e3 = rule.entries[3];
    let e4 = rule.entries[4];
    let e5 = rule.entries[5];
    let e6 = rule.entries[6];
    let e7 = rule.entries[7];
    RuleNumbers {
        head: rule.head.0,
        muted: rule.state > 1,
        positives: rule.positives,
        negatives: rule.negatives,
        entries: [e0.0, e1.0, e2.0, e3.0, e4.0, e5.0, e6.0, e7.0],
    }
}
