// A place that is lent: it is moved past blanks, and counts lines.
ghost use Rattle.std.specs.Prelude.{◌≡◌};
ghost use Rattle.places.specs.Places.{blanks_end, past_blanks, line_after, next_line};

use super::Place;

// Where the blanks that begin at an offset end. Past the end of the line it is that offset.
fn blanks_end(line: &[u8], start: usize) -> usize
    ensures { result ≡ blanks_end line.now start }
{
    let rest = &line[start.min(line.len())..];
    start + rest.iter().take_while(|&&b| b == b' ').count()
}

// The number of the next line. The count stops at the greatest u32: no sheet has as many lines.
fn line_after(line: u32) -> u32
    ensures { result ≡ line_after line }
{
    line.saturating_add(1)
}

// Moves the place past the blanks that begin at it.
pub fn skip_blanks(line: &[u8], place: &mut Place)
    ensures { place.new ≡ past_blanks line.now place.old }
{
    place.offset = blanks_end(line, place.offset);
}

// Counts a line: the place is then the start of the next line.
pub fn count_line(place: &mut Place)
    ensures { place.new ≡ next_line place.old }
{
    place.line = line_after(place.line);
    place.offset = 0;
}
