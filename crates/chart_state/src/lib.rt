// A chart in 15 places of its caller's state: read where it lies, its soundness, opened, and written after a set.

#![tactic(auto)]

ghost use Rattle.std.specs.Prelude.{◌≡◌, ◌+◌, ◌<◌, ◌≤◌, length};
ghost use Rattle.chart_rules.specs.Charts.{sound as sound_of, fresh_chart};
ghost use Rattle.chart_rules.specs.Places.{chart_set_at, chart_at, fresh_places, next_places};

use chart_rules::{
    CHART_PLACES, Chart, ChartSet, FIRST_SET, HELD_PLACE, HELD_SETS, LAST_WEEK, MOST_SETS, NO_ROW,
    ROW_PLACE, ROWS, WEEK_PLACE,
};
use whole::held;

// Where the sets after the newest stand, in a chart's places; a line's stand likewise in its own.
const SECOND_SET: usize = FIRST_SET + held::SET_PLACES;

const THIRD_SET: usize = SECOND_SET + held::SET_PLACES;

const FOURTH_SET: usize = THIRD_SET + held::SET_PLACES;

// ---- reading

// The set whose three places begin there; a line reads its past sets likewise, into another struct.
#[tactic(auto, unfolding(chart_rules::specs::Places::chart_set_at))]
fn set_at(state: &[i32], at: usize) -> ChartSet
    requires { at + 3 ≤ length state.now }
    ensures { result ≡ chart_set_at state.now at }
{
    ChartSet {
        count: state[at].cast_unsigned(),
        plot: state[at + 1],
        range: state[at + 2].cast_unsigned(),
    }
}

// A chart that holds no set, of a row by its number, as the rules have it.
fn fresh_chart(row: u32) -> Chart
    ensures { result ≡ fresh_chart row }
{
    let blank = ChartSet {
        count: 0,
        plot: 0,
        range: 0,
    };
    Chart {
        row,
        week: 0,
        held: 0,
        sets: [blank; HELD_SETS],
    }
}

// Places that aren't 15 read as a chart of a row that there isn't.
#[tactic(auto, unfolding(chart_rules::specs::Places::chart_in, chart_rules::specs::Places::chart_at))]
pub fn chart_at(state: &[i32]) -> Chart
    ensures { result ≡ chart_at state.now }
{
    if state.len() != CHART_PLACES {
        return fresh_chart(NO_ROW);
    }
    Chart {
        row: state[ROW_PLACE].cast_unsigned(),
        week: state[WEEK_PLACE].cast_unsigned(),
        held: state[HELD_PLACE].cast_unsigned(),
        sets: [
            set_at(state, FIRST_SET),
            set_at(state, SECOND_SET),
            set_at(state, THIRD_SET),
            set_at(state, FOURTH_SET),
        ],
    }
}

// ---- soundness

#[tactic(auto, unfolding(chart_rules::specs::Charts::sound))]
pub fn sound(chart: Chart) -> bool
    ensures { result ≡ sound_of chart }
{
    chart.row < ROWS
        && chart.week <= LAST_WEEK
        && chart.held <= MOST_SETS
        && chart.past().iter().all(chart_sets::sound_set)
}

// ---- writing

// A fresh chart of a row. The row is a number, as C hands it in and the places hold it.
#[tactic(auto, unfolding(chart_rules::specs::Places::fresh_places))]
pub fn put_fresh(state: &mut [i32; CHART_PLACES], row: u32)
    requires { row < 2147483648 }
    ensures { state.new ≡ fresh_places row }
{
    *state = [0; CHART_PLACES];
    state[ROW_PLACE] = row.cast_signed();
}

// The chart after a set: one more is held, and the other sets' places move on as they are. What is written fits an i32.
pub fn put_next(state: &mut [i32], week: u32, s: ChartSet)
    requires state_len { length state.old ≡ 15 }
    requires fits { (week < 2147483648) × ((s.count < 2147483648) × (s.range < 2147483648)) }
    ensures { state.new ≡ next_places state.old week s }
{
    let set = [s.count.cast_signed(), s.plot, s.range.cast_signed()];
    state[WEEK_PLACE] = week.cast_signed();
    held::join(&mut state[HELD_PLACE..CHART_PLACES], MOST_SETS, set);
}
