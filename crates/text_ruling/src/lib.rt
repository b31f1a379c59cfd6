// A value line of a chart text judged after the line before it: numbers 18, 19 and 21.

#![tactic(auto)]

ghost use Rattle.std.specs.Prelude.{◌≡◌, [], ◌∷◌, ◌≤◌, pos};
ghost use Rattle.chart_rules.specs.Refusals.{bad_result};
ghost use Rattle.chart_rules.specs.Judging.{is_next, is_start, ruling};

use chart_rules::{LARGEST_RESULT, MOST_PAIRS, RefusedText, TextRefusal, ValueLine};

// The line has the week before it and the next sample number up to 5.
#[tactic(auto, unfolding(chart_rules::specs::Judging::is_next))]
fn is_next(week: u32, sample: u32, v: ValueLine) -> bool
    requires { sample ≤ 5 }
    ensures { result ≡ is_next week sample v }
{
    sample != 0 && v.week == week && v.sample == sample + 1 && v.sample <= MOST_PAIRS
}

// The line has another week and sample 1.
#[tactic(auto, unfolding(chart_rules::specs::Judging::is_start))]
fn is_start(week: u32, sample: u32, v: ValueLine) -> bool
    ensures { result ≡ is_start week sample v }
{
    (sample == 0 || v.week != week) && v.sample == 1
}

// A result of the line lies outside 0..10000.
#[tactic(auto, unfolding(chart_rules::specs::Refusals::bad_result, chart_rules::specs::Refusals::outside))]
fn bad_pair(v: ValueLine) -> bool
    ensures { result ≡ bad_result (pos v.original ∷ pos v.monitor ∷ []) }
{
    LARGEST_RESULT < v.original || LARGEST_RESULT < v.monitor
}

// Whether a line is fine after the line before it, or the first refusal that applies.
// Of the line before it count its week and sample number alone, both 0 where there is none, so the rules take two numbers: a struct would be taken apart for them again.
#[tactic(auto, unfolding(chart_rules::specs::Judging::ruling))]
pub fn rule(week: u32, sample: u32, line: u32, v: ValueLine) -> Result<(), RefusedText>
    requires { sample ≤ 5 }
    ensures { result ≡ ruling week sample line v }
{
    let start = is_start(week, sample, v);
    if !is_next(week, sample, v) && !start {
        return Err(TextRefusal::BadSample.at_line(line));
    }
    if start && chart_bounds::bad_week(week, v.week) {
        return Err(TextRefusal::BadWeek.at_line(line));
    }
    if bad_pair(v) {
        return Err(TextRefusal::BadResult.at_line(line));
    }
    Ok(())
}
