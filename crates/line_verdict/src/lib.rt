// What a set does to its line (docs/SPECIFICATION.md, "A line between sheets").

#![tactic(auto)]

ghost use Rattle.std.specs.Prelude.{◌≡◌};
ghost use Rattle.whole.specs.Bounds.{Within};
ghost use Rattle.station_rules.specs.Lines.{adjust_by, verdict_of, change_of};
ghost use Rattle.station_rules.specs.Held.{line_values};
ghost use Rattle.line_past.specs.Ranges.{SetsOf};

use line::SoundLine;
use station_rules::{INTERCEPT_BOUND, Limits, Set, Verdict};

// Subtract the average from the intercept; where that would leave -1000..1000 the line is shut instead.
fn adjust(l: SoundLine, average: i32) -> Verdict
    requires { Within 2000000 2000000 average }
    ensures { (result ≡ adjust_by l.line.intercept average) × Within 2000000 2000000 (change_of result) }
{
    if (l.line.intercept - average).unsigned_abs() <= INTERCEPT_BOUND {
        Verdict::Adjusted(-average)
    } else {
        Verdict::Shut
    }
}

// What a set does to its line: N = 0 shuts it, else the tests due decide.
#[tactic(auto, unfolding(station_rules::specs::Lines::verdict_of))]
pub fn verdict_on(limits: Limits, l: SoundLine, day: u32, set: Set) -> Verdict
    requires { SetsOf 1 set.sum set.count }
    ensures { (result ≡ verdict_of limits (line_values l.line) day set) × Within 2000000 2000000 (change_of result) }
{
    if set.count == 0 {
        return Verdict::Shut;
    }
    let newest = line_past::valid(day, l.newest());
    let nonzero = line_past::valid(day, l.nonzero());
    match line_averages::first_exceeded(limits, l.line.phase, set, newest, nonzero) {
        Some(t) => adjust(l, whole::rounded(t.sum, t.count)),
        None => Verdict::Met,
    }
}
