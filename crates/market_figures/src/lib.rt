// The numbers of a market test: the basis, the newest set's day, and the two figures.

#![tactic(auto)]

ghost use Rattle.std.specs.Prelude.{◌≡◌, ◌≤◌, ◌<◌, All};
ghost use Rattle.station_rules.specs.Markets.{basis_of, newest_day, within, too_high, tenths, tenths_at};

use station_rules::{Basis, LARGEST, PastSet, WHOLE};

// B: standard is A, dry is 0, specified and as-is name it.
pub fn basis_value(a: u32, basis: Basis) -> i32
    requires { a < 10000 }
    ensures { result ≡ basis_of a basis }
{
    match basis {
        Basis::Standard => a as i32,
        Basis::Dry => 0,
        Basis::Specified(b) | Basis::AsIs(b) => b,
    }
}

// A value of 0..high. A test and no Option of the value: with `ok_or` on each in market::judge the proof did not close.
pub fn up_to(high: u32, z: i32) -> bool
    ensures { result ≡ within 0 high z }
{
    0 <= z && z.unsigned_abs() <= high
}

// The day of the newest of the past sets; 0 where there is none, as in the rules.
pub fn newest_day(past: &[PastSet]) -> u32
    ensures value { result ≡ newest_day past.now }
    ensures in_range { All (λ p. p.day ≤ 99999) past.now → result ≤ 99999 }
{
    match past {
        [newest, ..] => newest.day,
        [] => 0,
    }
}

// h in tenths, as figures are reported.
#[tactic(auto, unfolding(station_rules::specs::Markets::tenths))]
pub fn in_tenths(h: u32) -> u32
    ensures { result ≡ tenths h }
{
    whole::nearest_tenth(u64::from(h), 10) as u32
}

// A corrected value h, the standard basis A that it stands at and the basis B that it is asked at, in hundredths: in these ranges its conversion to B doesn't wrap.
#[derive(Clone, Copy)]
pub struct Corrected {
    pub value: u32,
    pub standard: u32,
    pub basis: u32,
    pub ghost in_range: { (value ≤ 10000) × ((standard < 10000) × (basis ≤ 5000)) },
}

impl Corrected {
    // h times (10000 - B) / (10000 - A) is above 10000.
    #[tactic(auto, unfolding(station_rules::specs::Markets::too_high))]
    pub fn is_too_high(self) -> bool
        ensures { result ≡ too_high self.standard self.basis self.value }
    {
        LARGEST * (WHOLE - self.standard) < self.value * (WHOLE - self.basis)
    }

    // h times (10000 - B) / (10000 - A) in tenths, as figures are reported.
    #[tactic(auto, unfolding(station_rules::specs::Markets::tenths_at))]
    pub fn in_tenths_at_basis(self) -> u32
        ensures { result ≡ tenths_at self.standard self.basis self.value }
    {
        let dividend = self.value * (WHOLE - self.basis);
        let divisor = 10 * (WHOLE - self.standard);
        whole::nearest_tenth(u64::from(dividend), u64::from(divisor)) as u32
    }
}
