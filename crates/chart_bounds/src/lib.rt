// Numbers 19 to 21: a set's week, size and results.

#![tactic(auto)]

ghost use Rattle.std.specs.Prelude.{◌≡◌};
ghost use Rattle.chart_rules.specs.Refusals.{bad_week, bad_size, bad_result};

use chart_rules::{LARGEST_RESULT, LAST_WEEK, MOST_NUMBERS};

// The largest result as a signed number.
const LARGEST: i32 = LARGEST_RESULT as i32;

// Number 21: some result is outside 0..10000.
#[tactic(auto, unfolding(chart_rules::specs::Refusals::bad_result, chart_rules::specs::Refusals::outside))]
pub fn bad_result(numbers: &[i32]) -> bool
    ensures { result ≡ bad_result numbers.now }
{
    numbers.iter().any(|n| !(0..=LARGEST).contains(n))
}

// Number 20: n numbers are no set.
#[tactic(auto, unfolding(chart_rules::specs::Refusals::bad_size))]
pub fn bad_size(n: usize) -> bool
    ensures { result ≡ bad_size n }
{
    n == 0 || MOST_NUMBERS < n || n % 2 == 1
}

// Number 19: the week isn't above the chart's last or is above 9999.
#[tactic(auto, unfolding(chart_rules::specs::Refusals::bad_week))]
pub fn bad_week(last: u32, week: u32) -> bool
    ensures { result ≡ bad_week last week }
{
    week <= last || LAST_WEEK < week
}
