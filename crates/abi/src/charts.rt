// The exported functions of charts. Places, week and numbers, and text and buffer, are parameters of their own, and a row is a number: so the C interface takes them.
ghost use Rattle.std.specs.Prelude.{◌≡◌};
ghost use Rattle.abi_chart.specs.ChartAnswers.{chart_open_call, chart_set_call, chart_text_call, chart_check_call};

use abi_answers::GrainAnswer;
use abi_chart::{GrainCharted, GrainWritten};
use chart_rules::CHART_PLACES;

#[unsafe(no_mangle)]
#[tactic(auto, unfolding(abi_chart::specs::ChartAnswers::chart_open_call))]
pub extern "C" fn grain_chart_open(state: &mut [i32; CHART_PLACES], row: usize) -> GrainAnswer
    ensures { record { given = result; places = state.new } ≡ chart_open_call row }
{
    GrainAnswer::from(chart::open(state, row).map_err(u32::from))
}

#[unsafe(no_mangle)]
pub extern "C" fn grain_chart_set(
    state: &mut [i32; CHART_PLACES],
    week: u32,
    numbers: &[i32],
    line: &mut [u8],
) -> GrainCharted
    ensures { record { given = result; places = state.new; line = line.new } ≡ chart_set_call state.old week numbers.now line.old }
{
    abi_chart::charted(chart::chart_set(state, week, numbers, line))
}

#[unsafe(no_mangle)]
pub extern "C" fn grain_chart_text(text: &[u8], out: &mut [u8]) -> GrainWritten
    ensures { record { given = result; out = out.new } ≡ chart_text_call text.now out.old }
{
    abi_chart::written(text::chart_text(text, out))
}

#[unsafe(no_mangle)]
#[tactic(auto, unfolding(abi_chart::specs::ChartAnswers::chart_check_call))]
pub extern "C" fn grain_chart_check(state: &[i32; CHART_PLACES]) -> GrainAnswer
    ensures { result ≡ chart_check_call state.now }
{
    GrainAnswer::from(chart::check(state).map_err(u32::from))
}
