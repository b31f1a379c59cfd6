// Control charts: opening, one set charted, and a check. What a call is handed comes from C, each part on its own: the
// places, a week, the numbers, a buffer.

#![tactic(auto)]

ghost use Rattle.std.specs.Prelude.{◌≡◌, ◌+◌, ◌-◌, ◌≤◌, length};
ghost use Rattle.decimal.specs.Put.{Put};
ghost use Rattle.chart_rules.specs.Calls.{result_of, bytes_of, check_of};
ghost use Rattle.chart_rules.specs.Places.{chart_at};
ghost use Rattle.chart_rules.specs.InPlace.{open_in, left_by, chart_set_in};

use chart_rules::{CHART_PLACES, Charted, ROWS, Refusal};

// The rows as an index.
const CHART_ROWS: usize = ROWS as usize;

// ---- opening

// A fresh chart of a row; a refused opening leaves one of row 0. The row is the number that C hands in.
#[tactic(auto, unfolding(chart_rules::specs::InPlace::open_in, chart_rules::specs::Calls::open_of, chart_rules::specs::Calls::opening))]
pub fn open(state: &mut [i32; CHART_PLACES], row: usize) -> Result<(), Refusal>
    ensures { record { answer = result; places = state.new } ≡ open_in row }
{
    if row < CHART_ROWS {
        chart_state::put_fresh(state, row as u32);
        return Ok(());
    }
    chart_state::put_fresh(state, 0);
    Err(Refusal::UnknownRow)
}

// ---- one set

// One set judged first, then charted in its caller's places, its line written from position at on. A refused call writes nothing.
pub fn chart_set_at(
    state: &mut [i32],
    week: u32,
    numbers: &[i32],
    out: &mut [u8],
    at: usize,
) -> Result<Charted, Refusal>
    requires { at ≤ length out.old }
    ensures value { result ≡ (result_of (chart_at state.old) week numbers.now (length out.old - at)).answer }
    ensures state_after { state.new ≡ left_by result state.old week numbers.now }
    ensures put { Put out.old at (bytes_of result) out.new (at + length (bytes_of result)) }
{
    let chart = chart_state::chart_at(state);
    chart_refusals::judge_call(chart, week, numbers, out.len() - at)?;
    let s = chart_sets::set_of(numbers);
    let values = chart_line::values_of(chart, week, s);
    let end = chart_line::write_values(out, at, values);
    chart_state::put_next(state, week, s);
    Ok(Charted {
        values,
        length: end - at,
    })
}

// The call: its output line stands at the buffer's start, and no later byte is touched.
pub fn chart_set(
    state: &mut [i32],
    week: u32,
    numbers: &[i32],
    out: &mut [u8],
) -> Result<Charted, Refusal>
    ensures { record { answer = result; places = state.new; buffer = out.new } ≡ chart_set_in state.old week numbers.now out.old }
{
    chart_set_at(state, week, numbers, out, 0)
}

// ---- a check

// Number 0 alone: whether a chart that was loaded may be used.
pub fn check(state: &[i32]) -> Result<(), Refusal>
    ensures { result ≡ check_of (chart_at state.now) }
{
    if chart_state::sound(chart_state::chart_at(state)) {
        Ok(())
    } else {
        Err(Refusal::UnsoundChart)
    }
}
