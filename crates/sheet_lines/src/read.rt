// Reading a line.
ghost use Rattle.std.specs.Prelude.{◌≡◌, [], ◌+◌, ◌≤◌, length, drop};
ghost use Rattle.places.specs.Places.{Onward};
ghost use Rattle.tokens.specs.Tokens.{tokens};
ghost use Rattle.tokens.specs.Parts.{part};
ghost use Rattle.sheet_lines.specs.Commands.{made, only, rule_form, command as command-of};
ghost use Rattle.sheet_lines.specs.Commands.{replacement as replacement-of, labels_form as labels-form-of};
ghost use Rattle.sheet_lines.specs.Readings.{Answers, LINE, TOKENS, whether, line_of};
ghost use Rattle.sheet_lines.specs.Readings.{reading as reading-of};
ghost use Rattle.sheet_lines.specs.Parts.{IsCommandFor, OfRule, Makes, rule_command, Collected};

use super::{Command, Parsed, Reading};
use fields::bytes_left;
use places::Place;
use tokens::{Token, ended, is, next_token, numeral};

// The first count of the entries are numbers that were read. The rest of the line begins at next.
#[derive(Clone, Copy)]
struct Numbers {
    entries: [u32; Parsed::TOKENS],
    count: usize,
    next: Place,
}

// The bytes of a token.
fn text(line: &[u8], t: Token) -> &[u8]
    requires ordered { t.start ≤ t.next.offset }
    requires within { t.next.offset ≤ length line.now }
    ensures { result.now ≡ part line.now t.start t.next.offset }
{
    &line[t.start..t.next.offset]
}

// Reads numbers up to the first token that is none, and puts them behind those that are known.
fn collect(line: &[u8], known: [u32; Parsed::TOKENS], size: usize, place: Place) -> Numbers
    requires offset_in_bounds { place.offset ≤ length line.now }
    requires line_bound { size + length (tokens (drop place.offset line.now)) ≤ TOKENS }
    ensures { Collected line.now known size place result }
{
    let mut entries = known;
    let mut count = size;
    let mut next = place;
    loop {
        let t = next_token(line, next);
        let Some(n) = numeral(text(line, t)) else {
            return Numbers {
                entries,
                count,
                next,
            };
        };
        entries[count] = n;
        count += 1;
        next = t.next;
    }
}

// A reading with no entries, and the place that was come to.
pub fn plain(reading: Reading, place: Place) -> Parsed
    ensures answers { Answers (line_of reading [] []) result }
    ensures place_value { result.place ≡ place }
{
    Parsed {
        place,
        reading,
        positives: 0,
        negatives: 0,
        entries: [0; Parsed::TOKENS],
    }
}

// The lists of a rule, beside the command that was made of its head.
fn lists(line: &[u8], command: Command, place: Place) -> Parsed
    requires offset_in_bounds { place.offset ≤ length line.now }
    requires line_len_bound { length (tokens (drop place.offset line.now)) ≤ TOKENS }
    ensures answers { (f : _) (h : _) → OfRule f → IsCommandFor f h command
        → Answers (whether (rule_command f h (tokens (drop place.offset line.now)))) result }
    ensures onward { Onward line.now place result.place }
{
    let p = collect(line, [0; Parsed::TOKENS], 0, place);
    let found = p.entries;
    let reading = Reading::Command(command);
    if ended(line, p.next) {
        return Parsed {
            place: p.next,
            reading,
            positives: p.count,
            negatives: 0,
            entries: found,
        };
    }
    let t = next_token(line, p.next);
    if !is(text(line, t), b'!') {
        return plain(Reading::NotACommand, t.next);
    }
    let n = collect(line, found, p.count, t.next);
    if !ended(line, n.next) {
        return plain(Reading::NotACommand, n.next);
    }
    let entries = n.entries;
    Parsed {
        place: n.next,
        reading,
        positives: p.count,
        negatives: n.count - p.count,
        entries,
    }
}

// What follows the `A` of an addition, or the slot of a replacement: the command is made of the head.
fn rule<F: FnOnce(u32) -> Command>(line: &[u8], place: Place, command: F) -> Parsed
    requires offset_in_bounds { place.offset ≤ length line.now }
    requires line_len_bound { length (tokens (drop place.offset line.now)) ≤ TOKENS }
    requires callable { F.IsAlwaysCallable command }
    ensures answers { (f : _) → OfRule f → Makes (F.post command) f
        → Answers (whether (rule_form f (tokens (drop place.offset line.now)))) result }
    ensures onward { Onward line.now place result.place }
{
    let h = next_token(line, place);
    let Some(head) = numeral(text(line, h)) else {
        return plain(Reading::NotACommand, h.next);
    };
    let c = next_token(line, h.next);
    if !is(text(line, c), b':') {
        return plain(Reading::NotACommand, c.next);
    }
    lists(line, command(head), c.next)
}

// What follows the `P` of a replacement: a slot, and then a rule.
fn replacement(line: &[u8], place: Place) -> Parsed
    requires offset_in_bounds { place.offset ≤ length line.now }
    requires line_len_bound { length (tokens (drop place.offset line.now)) ≤ TOKENS }
    ensures answers { Answers (whether (replacement-of (tokens (drop place.offset line.now)))) result }
    ensures onward { Onward line.now place result.place }
{
    let t = next_token(line, place);
    let Some(slot) = numeral(text(line, t)) else {
        return plain(Reading::NotACommand, t.next);
    };
    rule(line, t.next, |head| Command::Replace(slot, head))
}

// What follows the `R` of a removal, or the `W` of a request for a reason: one number, of which the command is made.
fn numbered<F: FnOnce(u32) -> Command>(line: &[u8], place: Place, command: F) -> Parsed
    requires in_bounds { place.offset ≤ length line.now }
    requires callable { F.IsAlwaysCallable command }
    ensures answers { (f : _) → Makes (F.post command) (λ n ps ns. f n)
        → Answers (whether (made f (only (tokens (drop place.offset line.now))))) result }
    ensures onward { Onward line.now place result.place }
{
    let t = next_token(line, place);
    if !ended(line, t.next) {
        return plain(Reading::NotACommand, t.next);
    }
    let Some(n) = numeral(text(line, t)) else {
        return plain(Reading::NotACommand, t.next);
    };
    plain(Reading::Command(command(n)), t.next)
}

// What follows the `L` of a request for the labels.
fn labels_form(line: &[u8], place: Place) -> Parsed
    ensures answers { Answers (whether (labels-form-of (tokens (drop place.offset line.now)))) result }
    ensures onward { Onward line.now place result.place }
{
    if !ended(line, place) {
        return plain(Reading::NotACommand, place);
    }
    plain(Reading::Command(Command::Labels), place)
}

// The command that stands from a place on, in at most as many bytes as a line has.
fn form(line: &[u8], place: Place) -> Parsed
    requires offset_in_bounds { place.offset ≤ length line.now }
    requires line_len_bound { length (drop place.offset line.now) ≤ LINE }
    ensures answers { Answers (whether (command-of (drop place.offset line.now))) result }
    ensures onward { Onward line.now place result.place }
{
    let t = next_token(line, place);
    let word = text(line, t);
    let next = t.next;
    if is(word, b'A') {
        return rule(line, next, Command::Add);
    }
    if is(word, b'R') {
        return numbered(line, next, Command::Remove);
    }
    if is(word, b'P') {
        return replacement(line, next);
    }
    if is(word, b'W') {
        return numbered(line, next, Command::Why);
    }
    if is(word, b'L') {
        return labels_form(line, next);
    }
    plain(Reading::NotACommand, next)
}

// What stands in a line from a place on: it is blank, over-long, of no form, or a command with its lists. Any bytes and
// any place may come in; past the line's end nothing stands. How far on the place handed back is, is left free:
// only `count_line` uses that place.
pub fn read(line: &[u8], place: Place) -> Parsed
    ensures answers { Answers (reading-of (drop place.offset line.now)) result }
    ensures onward { Onward line.now place result.place }
{
    if bytes_left(line.len(), place.offset) > Parsed::LINE {
        return plain(Reading::LineTooLong, place);
    }
    if ended(line, place) {
        return plain(Reading::Blank, place);
    }
    form(line, place)
}
