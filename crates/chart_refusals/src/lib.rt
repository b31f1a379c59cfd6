// Which refusal applies to a call that charts one set. Week, numbers and room are what the call is handed from C, each on its own.

#![tactic(auto)]

ghost use Rattle.std.specs.Prelude.{◌≡◌};
ghost use Rattle.chart_rules.specs.Refusals.{refusal_of};

use chart_rules::{Chart, LINE_ROOM, Refusal};

// The first refusal that applies, for a buffer with room for so many bytes.
#[tactic(auto, unfolding(chart_rules::specs::Refusals::refusal_of))]
pub fn judge_call(chart: Chart, week: u32, numbers: &[i32], room: usize) -> Result<(), Refusal>
    ensures { result ≡ refusal_of chart week numbers.now room }
{
    if !chart_state::sound(chart) {
        return Err(Refusal::UnsoundChart);
    }
    if chart_bounds::bad_week(chart.week, week) {
        return Err(Refusal::BadWeek);
    }
    if chart_bounds::bad_size(numbers.len()) {
        return Err(Refusal::BadSize);
    }
    if chart_bounds::bad_result(numbers) {
        return Err(Refusal::BadResult);
    }
    if room < LINE_ROOM {
        return Err(Refusal::ShortBuffer);
    }
    Ok(())
}
