// Market tests (docs/SPECIFICATION.md, "Market test and moisture basis", "Wet gluten"): their numbers in order, and the call on a station in
// its caller's places.

#![tactic(auto)]

ghost use Rattle.std.specs.Prelude.{◌≡◌};
ghost use Rattle.station_rules.specs.Held.{line_values};
ghost use Rattle.station_rules.specs.Places.{station_in};
ghost use Rattle.station_rules.specs.InPlace.{market_in};
ghost use Rattle.market.specs.Answers.{tested_of, answered_of};

use market_figures::Corrected;
use station_entry::Entry;
use station_rules::{Asked, BASIS_BOUND, Basis, Certificate, LARGEST, Refusal, Scan};

// What a call asks: a line's market test on a day. The exported functions hand these in one by one, as C does, and `market` makes one of them at once.
#[derive(Clone, Copy)]
struct Request {
    day: u32,
    line: usize,
    scan: Scan,
    asked: Asked,
    basis: Basis,
}

// Numbers 8, 23, 24, 9 to 12, 25, 26, 13 and 14, on the row and the line that numbers 0, 2 and 3 leave.
#[tactic(auto, unfolding(crate::specs::Answers::judged_of), using(crate::proofs::JudgeLaws::judging))]
fn judge(entry: Entry, request: &Request) -> Result<Certificate, Refusal>
    ensures { result ≡ tested_of entry.row (line_values entry.sound.line) request.now.day request.now.line request.now.scan request.now.asked request.now.basis }
{
    let Request {
        day,
        line,
        scan,
        asked,
        basis,
    } = *request;
    let row = entry.row;
    let x = market_scan::pick(row, scan, asked, line).ok_or(Refusal::WrongScan)?;
    if market_asked::is_other_class(asked) {
        return Err(Refusal::GlutenClass);
    }
    if market_asked::is_other_basis(asked, basis) {
        return Err(Refusal::GlutenBasis);
    }
    let reading = reading::reading(x).ok_or(Refusal::BadFloat)?;
    let a = market_asked::basis_from(row, asked);
    let b = market_figures::basis_value(a, basis);
    if !market_figures::up_to(BASIS_BOUND, b) {
        return Err(Refusal::BadBasis);
    }
    let i = market_asked::intercept_of(asked, entry.sound.line.intercept);
    let h = reading as i32 + i;
    if !market_figures::up_to(LARGEST, h) {
        return Err(Refusal::BadValue);
    }
    let corrected = Corrected {
        value: h.unsigned_abs(),
        standard: a,
        basis: b.unsigned_abs(),
    };
    market_certificate::certify(entry.sound, day, i, corrected)
}

// All numbers of a market test: 0, 2, 3, and those of the test.
fn answer(state: &[i32], request: &Request) -> Result<Certificate, Refusal>
    ensures { result ≡ answered_of (station_in state.now) request.now.day request.now.line request.now.scan request.now.asked request.now.basis }
{
    let entry = station_entry::judge_line(state, request.day, request.line)?;
    judge(entry, request)
}

// A certificate moves the station's day, and nothing else is written; a refusal writes nothing.
#[tactic(auto, using(crate::proofs::AnswerLaws::certified_first, crate::proofs::AnswerLaws::certified_left, crate::proofs::AnswerLaws::refused_left))]
pub fn market(
    state: &mut [i32],
    day: u32,
    line: usize,
    scan: Scan,
    asked: Asked,
    basis: Basis,
) -> Result<Certificate, Refusal>
    ensures { record { answer = result; places = state.new } ≡ market_in state.old day line scan asked basis }
{
    let request = Request {
        day,
        line,
        scan,
        asked,
        basis,
    };
    let certificate = answer(state, &request)?;
    station_places::put_day(state, day);
    Ok(certificate)
}
