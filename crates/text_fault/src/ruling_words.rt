// The words for a value line that can't stand behind the one before it, or has a result above 10000:
// numbers 18, 19 and 21.

use crate::fields::{Columns, Field};
use crate::line_words;
use crate::places::Place;
use crate::printable::Printable;
use chart_rules::{LARGEST_RESULT, LAST_WEEK, MOST_PAIRS, TextRefusal, ValueLine};
use std::fmt;
use std::fmt::Write;

// Number 18.
fn write_sample(out: &mut Printable, place: Place, v: ValueLine) -> fmt::Result {
    let ValueLine { week, sample, .. } = v;
    write!(out, "sample {sample} of week {week} cannot come here: ")?;
    match (place.week, place.sample) {
        (_, 0) => write!(out, "the first line has sample 1"),
        (last, before) if before < MOST_PAIRS => {
            let next = before + 1;
            write!(
                out,
                "sample {next} comes next in week {last}, or sample 1 of a later week"
            )
        }
        _ => write!(out, "sample 1 of a later week comes next"),
    }
}

// Number 19.
fn write_week(out: &mut Printable, last: u32, week: u32) -> fmt::Result {
    if week == 0 {
        return write!(out, "week 0 does not exist, write week 1 or above");
    }
    if LAST_WEEK < week {
        return write!(out, "week {week} does not exist, write week 9999 or below");
    }
    write!(out, "week {week} does not come after week {last}; ")?;
    write!(
        out,
        "weeks go on rising over the year's end, after 2652 comes 2701"
    )
}

// What to mend in a value line by its refusal, with the number that it speaks of.
pub(crate) fn write_ruling(
    out: &mut Printable,
    refusal: TextRefusal,
    place: Place,
    columns: Columns,
    v: ValueLine,
) -> fmt::Result {
    match refusal {
        TextRefusal::BadWeek => {
            write_week(out, place.week, v.week)?;
            line_words::write_column(out, 1, Some(Field::Week))
        }
        TextRefusal::BadResult => {
            write!(
                out,
                "write at most {LARGEST_RESULT}, which is 100.00 percent"
            )?;
            if LARGEST_RESULT < v.original {
                line_words::write_column(out, columns.original, Some(Field::Original))
            } else {
                line_words::write_column(out, columns.monitor, Some(Field::Monitor))
            }
        }
        _ => {
            write_sample(out, place, v)?;
            line_words::write_column(out, columns.sample, Some(Field::Sample))
        }
    }
}
