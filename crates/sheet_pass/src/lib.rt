// The pass over a sheet's samples (docs/SPECIFICATION.md, "The reference sheet"), one part of the lent numbers after another: numbers 5 and 6, the range of rule 3, and S where there is no
// again round. Nothing of a sample is kept but what it adds to these.

#![tactic(auto)]

ghost use Rattle.std.specs.Prelude.{◌≡◌, ◌≤◌, length, IfOk};
ghost use Rattle.whole.specs.Bounds.{Within};
ghost use Rattle.station_rules.specs.Sheets.{samples_of};
ghost use Rattle.sheet_pass.specs.Passes.{Bounded, widened, joined, found_of, round_of};

use sheet_numbers::MeasuredSample;
use sheet_sample::Terms;
use station_rules::{Limits, Refusal, Sample};

// No deviation lies beyond these: the largest so far starts from the lower, the smallest from the higher (an Option of the span is no plainer: each step would have two ways).
const LOWEST: i32 = -25000;

const HIGHEST: i32 = 25000;

// Of some samples: whether one deviates (one may, and the span be too narrow for a round, so it is no Option), and the largest and the smallest deviation.
#[derive(Clone, Copy)]
pub struct Span {
    pub deviating: bool,
    pub high: i32,
    pub low: i32,
}

// What the samples so far come to: whether 6 (a wrong third) applies, whether an again pair is there, the span and the sum of the deviations. The two flags are no refusals yet: a wrong number
// (5) in a later sample counts before a wrong third, and whether an again pair may be there shows at the end.
#[derive(Clone, Copy)]
pub struct Found {
    pub third: bool,
    pub again: bool,
    pub span: Span,
    pub sum: i32,
}

// The span with one deviation more: a sample that doesn't deviate widens it too.
#[tactic(auto, using(crate::proofs::BoundLaws::spans, whole::proofs::Tests::or_true))]
fn widened(limits: Limits, s: Span, d: i32) -> Span
    ensures { result ≡ widened limits s d }
{
    let wider = Span {
        high: s.high.max(d),
        low: s.low.min(d),
        ..s
    };
    if !sheet_sample::is_deviating(limits, d) {
        return wider;
    }
    Span {
        deviating: true,
        ..wider
    }
}

// One sample more; a wrong number is number 5.
#[tactic(auto, unfolding(crate::specs::Passes::joined, crate::specs::Passes::more))]
fn joined(terms: Terms, t: Found, s: Sample) -> Result<Found, Refusal>
    requires { Within 25000000 25000000 t.sum }
    ensures { result ≡ joined terms.limits terms.intercept t s }
{
    let measured = MeasuredSample::try_from(s)?;
    let d = terms.first_deviation(measured);
    Ok(Found {
        third: t.third || sheet_sample::wrong_third(terms.limits, s),
        again: t.again || sheet_numbers::has_again(s),
        span: widened(terms.limits, t.span, d),
        sum: t.sum + d,
    })
}

// The pass stops at a wrong number (5) only: it counts before a wrong third (6), whichever sample has it.
#[tactic(auto, using(crate::proofs::PassLaws::passing_next))]
pub fn pass(terms: Terms, numbers: &[i32]) -> Result<Found, Refusal>
    requires { (6 ≤ length numbers.now) × (length numbers.now ≤ 6000) }
    ensures is { result ≡ found_of terms.limits terms.intercept (samples_of numbers.now) }
    ensures bounds { IfOk result (Bounded 1000) }
{
    let mut t = Found {
        third: false,
        again: false,
        span: Span {
            deviating: false,
            high: LOWEST,
            low: HIGHEST,
        },
        sum: 0,
    };
    for s in sheet_numbers::samples(numbers) {
        t = joined(terms, t, s)?;
    }
    Ok(t)
}

// Rule 3: some sample deviates, and the largest minus the smallest deviation is above twice the range limit.
pub fn again_round(limits: Limits, s: Span) -> bool
    ensures { result ≡ round_of limits s }
{
    s.deviating && 2 * i64::from(limits.range) < i64::from(s.high) - i64::from(s.low)
}
