// The pass of an again round (docs/SPECIFICATION.md, "The reference sheet", rules 3 and 4): number 7, S and N, one part of the lent numbers after another.

#![tactic(auto)]

ghost use Rattle.std.specs.Prelude.{◌≡◌, ◌≤◌, false, length};
ghost use Rattle.whole.specs.Bounds.{Within};
ghost use Rattle.whole.specs.Lists.{any};
ghost use Rattle.station_rules.specs.Sheets.{samples_of, wrong_number};
ghost use Rattle.sheet_again.specs.Tallies.{added, counted};

use sheet_numbers::MeasuredSample;
use sheet_sample::Terms;
use station_rules::Set;

// S and N so far, and whether an again pair was missing or needless (number 7).
#[derive(Clone, Copy)]
pub struct Tally {
    pub wrong: bool,
    pub set: Set,
}

// A sample's deviation joins S, and 2 joins N, also where number 7 applies; one that still deviates is dropped.
fn add_sample(terms: Terms, t: Tally, s: MeasuredSample) -> Tally
    requires { (Within 25000000 25000000 t.set.sum) × (t.set.count ≤ 2000) }
    ensures { result ≡ added terms.limits terms.intercept t s.sample }
{
    let again = terms.in_round(s);
    let wrong = t.wrong || again.wrong;
    if sheet_sample::is_deviating(terms.limits, again.deviation) {
        return Tally { wrong, ..t };
    }
    Tally {
        wrong,
        set: Set {
            sum: t.set.sum + again.deviation,
            count: t.set.count + 2,
        },
    }
}

// Number 7, S and N. Number 5 applies to no sample, so none is tested for it again.
pub fn counted(terms: Terms, numbers: &[i32]) -> Tally
    requires { (length numbers.now ≤ 6000) × (any wrong_number (samples_of numbers.now) ≡ false) }
    ensures is { result ≡ counted terms.limits terms.intercept (samples_of numbers.now) }
    ensures small { Within 25000000 25000000 result.set.sum }
{
    let mut t = Tally {
        wrong: false,
        set: Set { sum: 0, count: 0 },
    };
    for sample in sheet_numbers::samples(numbers) {
        t = add_sample(terms, t, MeasuredSample { sample });
    }
    t
}
