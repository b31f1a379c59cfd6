// Rule 1: the pair used is the closest of first-second, first-third, second-third, among equals the earlier named. Pairs are arrays by value, a form asked for by name (docs/DECISIONS.md, "Forms").

#![tactic(auto)]

ghost use Rattle.std.specs.Prelude.{◌≡◌};
ghost use Rattle.whole.specs.Bounds.{Within};
ghost use Rattle.station_rules.specs.Sheets.{spread, closer, pair_sum, closest_pair};
ghost use Rattle.sheet_pairs.specs.Pairs.{pair_of, Small};

use sheet_numbers::MeasuredSample;

// How far a pair's results lie apart.
#[tactic(auto, unfolding(station_rules::specs::Sheets::spread))]
pub fn spread(p: [i32; 2]) -> u32
    ensures { result ≡ spread (pair_of p) }
{
    p[0].abs_diff(p[1])
}

pub fn pair_sum(p: [i32; 2]) -> i32
    requires { Small p }
    ensures { (result ≡ pair_sum (pair_of p)) × Within 2 20000 result }
{
    p[0] + p[1]
}

// Of two pairs the closer; of equals the earlier named.
#[tactic(auto, unfolding(station_rules::specs::Sheets::closer))]
fn closer(p: [i32; 2], q: [i32; 2]) -> [i32; 2]
    ensures { pair_of result ≡ closer (pair_of p) (pair_of q) }
{
    if spread(q) < spread(p) { q } else { p }
}

// `closer` twice: of `min_by_key` over the three the proof did not close.
pub fn closest_pair(s: MeasuredSample) -> [i32; 2]
    ensures { (pair_of result ≡ closest_pair s.sample) × Small result }
{
    let s = s.sample;
    let pairs = [[s.first, s.second], [s.first, s.third], [s.second, s.third]];
    closer(closer(pairs[0], pairs[1]), pairs[2])
}
