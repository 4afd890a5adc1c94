// The tokens of a line, and the numbers among them.
#![tactic(auto)]

ghost use Rattle.std.specs.Prelude.{◌≡◌, ◌+◌, ◌≤◌, length, drop};
ghost use Rattle.places.specs.Places.{leading};
ghost use Rattle.tokens.specs.Tokens.{in_token, tokens, one};
ghost use Rattle.tokens.specs.Numerals.{spelled_from};
ghost use Rattle.tokens.specs.Numerals.{numeral as numeral-of};
ghost use Rattle.tokens.specs.Parts.{empty, First, as_option};

use places::{Place, past_blanks};

// The bytes from start up to the place next are a token. Where no token is left, they are none.
#[derive(Clone, Copy)]
pub struct Token {
    pub start: usize,
    pub next: Place,
}

// Where the token that begins at an offset ends. Past the end of the line it is that offset.
fn token_end(line: &[u8], start: usize) -> usize
    ensures { result ≡ start + leading in_token (drop start line.now) }
{
    let rest = &line[start.min(line.len())..];
    start + rest.iter().take_while(|&&b| b != b' ').count()
}

// The next token.
pub fn next_token(line: &[u8], place: Place) -> Token
    ensures { First line.now place result }
{
    let begin = past_blanks(line, place);
    let start = begin.offset;
    let end = token_end(line, start);
    Token {
        start,
        next: Place {
            offset: end,
            line: begin.line,
        },
    }
}

// Is no token left?
pub fn ended(line: &[u8], place: Place) -> bool
    ensures { result ≡ empty (tokens (drop place.offset line.now)) }
{
    let rest = past_blanks(line, place);
    rest.offset >= line.len()
}

// Is the token this one byte?
pub fn is(token: &[u8], byte: u8) -> bool
    ensures { result ≡ one byte token.now }
{
    if token.len() != 1 {
        return false;
    }
    token[0] == byte
}

// What a token spells, if it is of digits.
fn value(token: &[u8]) -> Option<u32>
    requires { length token.now ≤ 5 }
    ensures { as_option result ≡ spelled_from 0 token.now }
{
    let mut n: u32 = 0;
    for &b in token {
        if !b.is_ascii_digit() {
            return None;
        }
        n = n * 10 + (b - b'0') as u32;
    }
    Some(n)
}

// The number that a token is.
pub fn numeral(token: &[u8]) -> Option<u32>
    ensures { as_option result ≡ numeral-of token.now }
{
    let n = token.len();
    if n == 0 {
        return None;
    }
    if n > 5 {
        return None;
    }
    if n > 1 {
        if token[0] == b'0' {
            return None;
        }
    }
    value(token)
}
