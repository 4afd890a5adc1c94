// A place in a sheet: an offset in the bytes of a line, and the number of that line.
#![tactic(auto)]

ghost use Rattle.std.specs.Prelude.{◌≡◌};
ghost use Rattle.places.specs.Places.{past_blanks, next_line};
ghost use Rattle.places.specs.Places.{start as start-of-sheet};

pub mod moves; // moves.rt: a lent place, moved past blanks and to the next line

#[derive(Clone, Copy)]
pub struct Place {
    pub offset: usize,
    pub line: u32,
}

impl Place {
    // The start of a sheet. Lines count from 1.
    pub fn start() -> Place
        ensures { result ≡ start-of-sheet }
    {
        Place { offset: 0, line: 1 }
    }

    // The start of the next line.
    pub fn next_line(mut self) -> Place
        ensures { result ≡ next_line self }
    {
        moves::count_line(&mut self);
        self
    }
}

// The place past the blanks that begin at a place.
pub fn past_blanks(line: &[u8], mut place: Place) -> Place
    ensures { result ≡ past_blanks line.now place }
{
    moves::skip_blanks(line, &mut place);
    place
}
