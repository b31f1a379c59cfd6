// A set of a control chart: its pairs of results turned into count, plot and range.

#![tactic(auto)]

ghost use Rattle.std.specs.Prelude.{◌≡◌, ◌≤◌, ◌<◌, ◌≤ℤ◌, ◌-ℤ◌, false, length, pos};
ghost use Rattle.whole.specs.Rounding.{half_up};
ghost use Rattle.chart_rules.specs.Refusals.{bad_size, bad_result};
ghost use Rattle.chart_rules.specs.Sets.{set_of};
ghost use Rattle.chart_rules.specs.Charts.{sound_set};

use chart_rules::{ChartSet, LARGEST_PLOT, LARGEST_RANGE, MOST_PAIRS};

// The mean of so many results, by their total, rounded to a hundredth, halves up.
fn mean(total: u32, count: u32) -> i32
    requires { (total < 2147483648) × (1 ≤ count) }
    ensures { (result ≡ pos (half_up total count)) × (result ≤ℤ pos total) }
{
    whole::half_up(u64::from(total), u64::from(count)) as i32
}

// What so many pairs, one to five, plot: by the totals of their originals and of their monitors.
fn plot(originals: u32, monitors: u32, count: u32) -> i32
    requires { (originals ≤ 50000) × ((monitors ≤ 50000) × ((1 ≤ count) × (count ≤ 5))) }
    ensures { result ≡ pos (half_up originals count) -ℤ pos (half_up monitors count) }
{
    mean(originals, count) - mean(monitors, count)
}

// The set of some results, original and monitor in turn, to which neither 20 nor 21 applies: one pass for both totals, largest and smallest, where a chain for each would take the pairs four times.
#[tactic(auto, unfolding(chart_rules::specs::Refusals::bad_size))]
pub fn set_of(numbers: &[i32]) -> ChartSet
    requires { (bad_size (length numbers.now) ≡ false) × (bad_result numbers.now ≡ false) }
    ensures { result ≡ set_of numbers.now }
{
    let first = numbers[0] - numbers[1];
    let mut originals = 0;
    let mut monitors = 0;
    let mut largest = first;
    let mut smallest = first;
    for pair in numbers.chunks_exact(2) {
        let difference = pair[0] - pair[1];
        originals += pair[0];
        monitors += pair[1];
        largest = largest.max(difference);
        smallest = smallest.min(difference);
    }
    let count = (numbers.len() / 2) as u32;
    ChartSet {
        count,
        plot: plot(originals.cast_unsigned(), monitors.cast_unsigned(), count),
        range: (largest - smallest).unsigned_abs(),
    }
}

// A held set is sound.
#[tactic(auto, unfolding(chart_rules::specs::Charts::sound_set))]
pub fn sound_set(s: &ChartSet) -> bool
    ensures { result ≡ sound_set s.now }
{
    (1..=MOST_PAIRS).contains(&s.count)
        && s.plot.unsigned_abs() <= LARGEST_PLOT
        && s.range <= LARGEST_RANGE
}
