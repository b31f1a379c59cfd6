// Quotients rounded to a whole number, and sets of three numbers held in the places of a state.

#![tactic(auto)]

ghost use Rattle.std.specs.Prelude.{◌≡◌, ◌+◌, ◌*◌, ◌≤◌, nat_abs};
ghost use Rattle.whole.specs.Bounds.{Within};
ghost use Rattle.whole.specs.Rounding.{half_up, rounded_away, nearest_tenth};

pub mod held;

// Dividend / divisor rounded to a whole number, halves away from zero.
pub fn rounded(dividend: i32, divisor: u32) -> i32
    requires { (Within 100000000 100000000 dividend) × ((1 ≤ divisor) × (divisor ≤ 100000000)) }
    ensures { (result ≡ rounded_away dividend divisor) × Within (2 * nat_abs dividend + divisor) (2 * nat_abs dividend + divisor) result }
{
    let quotient = ((2 * dividend.unsigned_abs() + divisor) / (2 * divisor)) as i32;
    if dividend < 0 { -quotient } else { quotient }
}

// Dividend / divisor rounded to the nearest whole number, halves up.
pub fn half_up(dividend: u64, divisor: u64) -> u64
    requires { (dividend ≤ 1000000000000) × ((1 ≤ divisor) × (divisor ≤ 1000000000000)) }
    ensures { (result ≡ half_up dividend divisor) × (result ≤ dividend) }
{
    (2 * dividend + divisor) / (2 * divisor)
}

// A figure as it is reported: dividend / divisor tenths, rounded once to the nearest tenth, halves up.
#[tactic(auto, unfolding(crate::specs::Rounding::nearest_tenth))]
pub fn nearest_tenth(dividend: u64, divisor: u64) -> u64
    requires { (dividend ≤ 1000000000000) × ((1 ≤ divisor) × (divisor ≤ 1000000000000)) }
    ensures { (result ≡ nearest_tenth dividend divisor) × (result ≤ dividend) }
{
    half_up(dividend, divisor)
}
