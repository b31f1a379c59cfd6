// A sheet's numbers judged by a line's limits and intercept: numbers 4 to 7, each over the whole sheet, else S and N.

#![tactic(auto)]

ghost use Rattle.std.specs.Prelude.{◌≡◌, ◌≤◌, false, length};
ghost use Rattle.whole.specs.Bounds.{Within};
ghost use Rattle.whole.specs.Lists.{any};
ghost use Rattle.station_rules.specs.Sheets.{samples_of, wrong_number};
ghost use Rattle.sheet.specs.Judged.{judged_of, without_round, in_round};

use sheet_pass::Found;
use sheet_sample::Terms;
use station_rules::{Limits, Refusal, SAMPLE_NUMBERS, Set};

// Without an again round no again pair may be there, and no sample is dropped.
fn without_round(found: Found, samples: usize) -> Result<Set, Refusal>
    requires { samples ≤ 1000 }
    ensures { result ≡ without_round found.again found.sum samples }
{
    if found.again {
        return Err(Refusal::AgainPair);
    }
    Ok(Set {
        sum: found.sum,
        count: 2 * (samples as u32),
    })
}

// In an again round the samples are passed over once more.
#[tactic(auto, unfolding(sheet_again::specs::Tallies::counted, crate::specs::Judged::in_round))]
fn in_round(terms: Terms, numbers: &[i32]) -> Result<Set, Refusal>
    requires { (length numbers.now ≤ 6000) × (any wrong_number (samples_of numbers.now) ≡ false) }
    ensures { result ≡ in_round terms.limits terms.intercept (samples_of numbers.now) }
{
    let tally = sheet_again::counted(terms, numbers);
    if tally.wrong {
        return Err(Refusal::AgainPair);
    }
    Ok(tally.set)
}

// Numbers 4 to 7 in their order, else S and N.
pub fn judge(
    limits: Limits,
    intercept: i32,
    samples: usize,
    numbers: &[i32],
) -> Result<Set, Refusal>
    requires { (Within 1000 1000 intercept) × ((1 ≤ samples) × (samples ≤ 1000)) }
    ensures { result ≡ judged_of limits intercept samples numbers.now }
{
    if numbers.len() != SAMPLE_NUMBERS * samples {
        return Err(Refusal::SheetSize);
    }
    let terms = Terms { limits, intercept };
    let found = sheet_pass::pass(terms, numbers)?;
    if found.third {
        return Err(Refusal::ThirdReading);
    }
    if sheet_pass::again_round(limits, found.span) {
        in_round(terms, numbers)
    } else {
        without_round(found, samples)
    }
}
