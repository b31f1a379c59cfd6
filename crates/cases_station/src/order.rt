// One sheet in every order of three samples: each order's answer, and whether the answers and the places left are alike.
use super::calls::Station;
use super::sheets::Sample;
use super::{say, sheets};
use station_rules::{Outcome, Refusal};
use std::io;

// A call's answer, and the station that it left.
#[derive(Clone, Copy, PartialEq)]
struct Came {
    answer: Result<Outcome, Refusal>,
    left: Station,
}

const ALIKE: &str = "  the answers are alike, and so are the 68 places after each";

const NOT_ALIKE: &str = "  the answers or the 68 places after each are not alike";

// A sheet of the three samples in this order, and of three more.
fn entered(rt: &impl Print, s: Station, samples: [Sample; 3]) -> io::Result<Came> {
    let numbers = sheets::three(samples);
    let mut left = s;
    let answer = station::sheet(&mut left.places, 2, 0, &numbers);
    say::answer(rt, 2, 0, answer)?;
    Ok(Came { answer, left })
}

// The sheet in all six orders on an open line, and whether each came to the same as the first.
fn every_order(rt: &impl Print, samples: [Sample; 3]) -> io::Result<()> {
    let s = Station::fresh(0).alike(rt, 1, 1000, 1000)?;
    let first = entered(rt, s, samples)?;
    let [a, b, c] = samples;
    let orders = [[a, c, b], [b, a, c], [b, c, a], [c, a, b], [c, b, a]];
    let mut same = true;
    for order in orders {
        same = entered(rt, s, order)? == first && same;
    }
    say::line(rt, if same { ALIKE } else { NOT_ALIKE })?;
    Ok(())
}

// One with a third; one that deviates by 102 and again by 22; one that deviates by -115 and again by -95, so that it is dropped.
pub(crate) fn accepted(rt: &impl Print) -> io::Result<()> {
    say::line(
        rt,
        "open; three samples in every order: a third; 102, again 22; -115, again -95",
    )?;
    every_order(
        rt,
        [
            [1000, 990, 1021, 992, -1, -1],
            [1100, 1151, 1151, -1, 1110, 1112],
            [900, 840, 845, -1, 850, 855],
        ],
    )?;
    Ok(())
}

// The lowest number, whichever sample it stands in.
pub(crate) fn refused(rt: &impl Print) -> io::Result<()> {
    say::line(
        rt,
        "open; three samples in every order: a third missing; a number 10001; an again pair that is not due",
    )?;
    every_order(
        rt,
        [
            [1000, 990, 1021, -1, -1, -1],
            [1100, 10001, 1100, -1, -1, -1],
            [900, 900, 900, -1, 900, 900],
        ],
    )?;
    Ok(())
}
