// Numbers 12, 25, 26, 13 and 14 of a market test, and the certificate (docs/SPECIFICATION.md, "Market test and moisture basis").

#![tactic(auto)]

ghost use Rattle.std.specs.Prelude.{◌≡◌, pos};
ghost use Rattle.station_rules.specs.Held.{phase_word, line_values};
ghost use Rattle.market_certificate.specs.Certified.{opened, certified_of};

use line::SoundLine;
use market_figures::Corrected;
use station_rules::{ADJUSTED_LINE, Certificate, NEW_LINE, NEWEST_DAYS, OPEN_LINE, Refusal};

// Numbers 12, 25 and 26: a line that isn't open is refused by its phase; there are no more than these four (number 0). The phase is a code, as the places hold it for C.
fn check_open(phase: u32) -> Result<(), Refusal>
    ensures { result ≡ opened (phase_word phase) }
{
    match phase {
        OPEN_LINE => Ok(()),
        NEW_LINE => Err(Refusal::NewLine),
        ADJUSTED_LINE => Err(Refusal::AdjustedLine),
        _ => Err(Refusal::ShutLine),
    }
}

// By the line, the day, the intercept i that is in the corrected value, and that value. Always inlined: called, it would have the whole line copied for it.
#[inline(always)]
#[tactic(auto, unfolding(crate::specs::Certified::certified_of))]
pub fn certify(l: SoundLine, day: u32, i: i32, corrected: Corrected) -> Result<Certificate, Refusal>
    ensures { result ≡ certified_of corrected.standard (line_values l.line) day i (pos corrected.basis) (pos corrected.value) }
{
    check_open(l.line.phase)?;
    let newest = market_figures::newest_day(l.newest());
    if newest < day.saturating_sub(NEWEST_DAYS) {
        return Err(Refusal::OldSet);
    }
    if corrected.is_too_high() {
        return Err(Refusal::TooHigh);
    }
    Ok(Certificate {
        day: newest,
        intercept: i,
        basis: corrected.basis as i32,
        figure: market_figures::in_tenths(corrected.value),
        converted: corrected.in_tenths_at_basis(),
    })
}
