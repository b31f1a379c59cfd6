// One sample of a sheet (docs/SPECIFICATION.md, "The reference sheet", rules 1 to 3): whether a third is due, its deviation, and what an again round makes of it.

#![tactic(auto)]

ghost use Rattle.std.specs.Prelude.{◌≡◌};
ghost use Rattle.whole.specs.Bounds.{Within};
ghost use Rattle.station_rules.specs.Sheets.{third_due, wrong_third, used_pair, pair_sum, deviation, deviates, first_deviation};
ghost use Rattle.sheet_pairs.specs.Pairs.{pair_of, Small};
ghost use Rattle.sheet_sample.specs.Rounds.{in_round};

use sheet_numbers::MeasuredSample;
use station_rules::{Limits, Sample};

// First and second differ by more than the pair limit.
#[tactic(auto, unfolding(station_rules::specs::Sheets::third_due))]
fn third_due(limits: Limits, s: Sample) -> bool
    ensures { result ≡ third_due limits s }
{
    limits.pair < sheet_pairs::spread([s.first, s.second])
}

// Number 6, of one sample.
pub fn wrong_third(limits: Limits, s: Sample) -> bool
    ensures { result ≡ wrong_third limits s }
{
    let measured = !sheet_numbers::is_absent(s.third);
    third_due(limits, s) != measured
}

// The magnitude is above twice the sample limit.
pub fn is_deviating(limits: Limits, d: i32) -> bool
    ensures { result ≡ deviates limits d }
{
    2 * u64::from(limits.sample) < u64::from(d.unsigned_abs())
}

// What an again round makes of a sample: number 7, and its deviation, also where 7 applies.
#[derive(Clone, Copy)]
pub struct Again {
    pub wrong: bool,
    pub deviation: i32,
}

// A line's limits and its intercept, by which no deviation wraps.
#[derive(Clone, Copy)]
pub struct Terms {
    pub limits: Limits,
    pub intercept: i32,
    pub ghost small: { Within 1000 1000 intercept },
}

impl Terms {
    // Rule 1: the closest pair where a third is due, else first and second.
    #[tactic(auto, unfolding(station_rules::specs::Sheets::used_pair))]
    fn used_pair(self, s: MeasuredSample) -> [i32; 2]
        ensures { (pair_of result ≡ used_pair self.limits s.sample) × Small result }
    {
        if third_due(self.limits, s.sample) {
            sheet_pairs::closest_pair(s)
        } else {
            [s.sample.first, s.sample.second]
        }
    }

    // A pair's sum plus twice the intercept minus twice the baseline.
    fn deviation_of(self, baseline: i32, pair: [i32; 2]) -> i32
        requires { (Within 1 10000 baseline) × (Small pair) }
        ensures { (result ≡ deviation self.intercept baseline (pair_sum (pair_of pair))) × Within 25000 25000 result }
    {
        sheet_pairs::pair_sum(pair) + 2 * self.intercept - 2 * baseline
    }

    #[tactic(auto, unfolding(station_rules::specs::Sheets::first_deviation))]
    pub fn first_deviation(self, s: MeasuredSample) -> i32
        ensures { (result ≡ first_deviation self.limits self.intercept s.sample) × Within 25000 25000 result }
    {
        self.deviation_of(s.sample.baseline, self.used_pair(s))
    }

    // In an again round an again pair is due for each deviating sample (number 7), and its deviation is worked out anew
    // from it.
    #[tactic(auto, unfolding(station_rules::specs::Sheets::final_deviation, crate::specs::Rounds::in_round))]
    pub fn in_round(self, s: MeasuredSample) -> Again
        ensures is { result ≡ in_round self.limits self.intercept s.sample }
        ensures small { Within 25000 25000 result.deviation }
    {
        let first = self.first_deviation(s);
        let due = is_deviating(self.limits, first);
        let wrong = due != sheet_numbers::has_again(s.sample);
        if !due {
            return Again {
                wrong,
                deviation: first,
            };
        }
        let s = s.sample;
        Again {
            wrong,
            deviation: self.deviation_of(s.baseline, [s.again_first, s.again_second]),
        }
    }
}
