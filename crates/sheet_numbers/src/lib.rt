// A sheet's samples, as its parts of six numbers come one after another, and number 5 (docs/SPECIFICATION.md, "The reference sheet").

#![tactic(auto)]

ghost use Rattle.std.specs.Prelude.{◌≡◌, length};
ghost use Rattle.station_rules.specs.Sheets.{samples_of, is_result, absent, wrong_number};
ghost use Rattle.sheet_numbers.specs.Samples.{sample_from, allowed, in_ranges, has_again, Measured};
ghost use Rattle.sheet_numbers.specs.Left.{samples_left};

use station_rules::{LARGEST, NOT_MEASURED, Refusal, SAMPLE_NUMBERS, Sample};

// The largest number of a sheet.
const LARGEST_NUMBER: i32 = LARGEST as i32;

// The sample of a part of the sheet.
pub fn sample_of(part: &[i32]) -> Sample
    requires { length part.now ≡ 6 }
    ensures { result ≡ sample_from part.now }
{
    Sample {
        baseline: part[0],
        first: part[1],
        second: part[2],
        third: part[3],
        again_first: part[4],
        again_second: part[5],
    }
}

// The samples of a sheet's numbers, one after another: an iterator of its own, since a function can't hand out a chain of std's (no impl Trait as a result) and both passes take it.
#[derive(Drop)]
pub struct SheetSamples<'a> {
    numbers: &'a [i32],
}

impl<'a> Iterator for SheetSamples<'a> {
    ghost use Rattle.std.specs.Iterator.{YieldsFirst, item_count};

    type Item = Sample;

    ghost next_gives = { YieldsFirst samples_left };

    ghost remaining = { item_count samples_left };

    #[tactic(auto, using(crate::proofs::SheetLaws::next_part, crate::proofs::SheetLaws::no_part))]
    fn next(&mut self) -> Option<Sample> {
        let (part, rest) = self.numbers.split_at_checked(SAMPLE_NUMBERS)?;
        self.numbers = rest;
        Some(sample_of(part))
    }
}

pub fn samples(numbers: &[i32]) -> SheetSamples<'_>
    ensures { samples_left result ≡ samples_of numbers.now }
{
    SheetSamples { numbers }
}

// A number of 0..10000.
fn is_result(x: i32) -> bool
    ensures { result ≡ is_result x }
{
    (0..=LARGEST_NUMBER).contains(&x)
}

// -1 stands for "not measured".
pub fn is_absent(x: i32) -> bool
    ensures { result ≡ absent x }
{
    x == NOT_MEASURED
}

fn is_allowed(x: i32) -> bool
    ensures { result ≡ allowed x }
{
    is_result(x) || is_absent(x)
}

// Every number is one of 0..10000, or -1 where allowed.
fn in_ranges(s: Sample) -> bool
    ensures { result ≡ in_ranges s }
{
    is_result(s.baseline)
        && is_result(s.first)
        && is_result(s.second)
        && is_allowed(s.third)
        && is_allowed(s.again_first)
        && is_allowed(s.again_second)
}

// Number 5, of one sample.
#[tactic(auto, unfolding(station_rules::specs::Sheets::wrong_number))]
pub fn wrong_number(s: Sample) -> bool
    ensures { result ≡ wrong_number s }
{
    !in_ranges(s) || is_absent(s.again_first) != is_absent(s.again_second)
}

// A sample each number of which is -1 or one of 0..10000, as number 5 leaves it.
#[derive(Clone, Copy)]
pub struct MeasuredSample {
    pub sample: Sample,
    pub ghost fine: { Measured sample },
}

impl TryFrom<Sample> for MeasuredSample {
    ghost use Rattle.std.specs.Prelude.{MatchResult, true, false};
    ghost use Rattle.station_refusals.specs.declared.Refusal.TheVariants.{SheetNumber};

    type Error = Refusal;

    ghost try_from_gives = { λ s r. MatchResult r (λ m. (wrong_number s ≡ false) × (m.sample ≡ s)) (λ e. (wrong_number s ≡ true) × (e ≡ SheetNumber)) };

    #[tactic(auto, using(crate::proofs::SampleLaws::measured))]
    fn try_from(s: Sample) -> Result<Self, Refusal> {
        if wrong_number(s) {
            return Err(Refusal::SheetNumber);
        }
        Ok(MeasuredSample { sample: s })
    }
}

// Its again pair is measured.
pub fn has_again(s: Sample) -> bool
    ensures { result ≡ has_again s }
{
    !is_absent(s.again_first)
}
