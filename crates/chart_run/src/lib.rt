// The run of the average: this set and three of the four before it.

#![tactic(auto)]

ghost use Rattle.std.specs.Prelude.{◌≡◌, take};
ghost use Rattle.chart_rules.specs.Run.{one_side, run_by, run as run_of};

use chart_rules::ChartSet;

// Four sets on one side of zero.
fn one_side(four: &[ChartSet; 4]) -> bool
    ensures { result ≡ one_side four.now }
{
    four.iter().all(|s| 0 < s.plot) || four.iter().all(|s| s.plot < 0)
}

// Four sets are a run: in 64 bits the sum of any four plots fits, and four times any limit.
#[tactic(auto, unfolding(chart_rules::specs::Run::run_by))]
fn run_by(limit: u32, four: &[ChartSet; 4]) -> bool
    ensures { result ≡ run_by limit four.now }
{
    let [s, p, q, w] = *four;
    let sum = i64::from(s.plot) + i64::from(p.plot) + i64::from(q.plot) + i64::from(w.plot);
    one_side(four) && 4 * u64::from(limit) < sum.unsigned_abs()
}

// This set and any three of the four before it, newest first, or of all where they are fewer. It is handed the three and no `Judged`: that is of chart_limits, which needs no run.
#[tactic(auto, unfolding(chart_rules::specs::Run::run))]
pub fn run(limit: u32, s: ChartSet, past: &[ChartSet]) -> bool
    ensures { result ≡ run_of limit s (take 4 past.now) }
{
    match *past {
        [p, q, w] => run_by(limit, &[s, p, q, w]),
        [p, q, w, x, ..] => {
            run_by(limit, &[s, p, q, w])
                || run_by(limit, &[s, p, q, x])
                || run_by(limit, &[s, p, w, x])
                || run_by(limit, &[s, q, w, x])
        }
        _ => false,
    }
}
