// A value line in its place.

ghost use Rattle.std.specs.Prelude.{◌≡◌};
ghost use Rattle.text_fault.specs.Places.{place_of};

use chart_rules::{FIRST_LINE, NAMES_LENGTH};

// The position at which a value line begins, and the week and the sample of the line before it, 0 where there is none.
#[derive(Clone, Copy)]
pub struct Place {
    pub at: usize,
    pub week: u32,
    pub sample: u32,
}

// The place of text line `line`, behind value lines alone.
#[tactic(auto, using(crate::proofs::Found::passed_steps))]
pub(crate) fn place_of(text: &[u8], line: u32) -> Option<Place>
    ensures { result ≡ place_of text.now line }
{
    let mut place = Place {
        at: NAMES_LENGTH,
        week: 0,
        sample: 0,
    };
    for _line in FIRST_LINE..line {
        let (read, next) = text_lines::read_line(text, place.at)?;
        place = Place {
            at: next,
            week: read.week,
            sample: read.sample,
        };
    }
    Some(place)
}
