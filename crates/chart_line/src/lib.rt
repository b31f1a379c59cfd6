// A set's output line: what it says, and its bytes. Buffer and position stay two parameters, for the reason that decimal gives.

#![tactic(auto)]

ghost use Rattle.std.specs.Prelude.{◌≡◌, ◌+◌, ◌≤◌, length};
ghost use Rattle.decimal.specs.Put.{Put};
ghost use Rattle.chart_rules.specs.Lines.{values_of, line_of};
ghost use Rattle.chart_line.specs.Values.{flag_bytes, SmallValues};

use chart_limits::Judged;
use chart_rules::{Chart, ChartSet, Values};

// What the set's output line says.
pub fn values_of(chart: Chart, week: u32, s: ChartSet) -> Values
    ensures { result ≡ values_of chart week s }
{
    let judged = Judged {
        limits: chart_limits::limits_of(chart.row),
        set: s,
        past: chart.past(),
    };
    Values {
        week,
        count: s.count,
        plot: s.plot,
        range: s.range,
        al: judged.absolute(),
        tl: judged.tolerance(),
        run: chart_run::run(judged.limits.run, s, judged.past),
        ral: judged.range_absolute(),
        rtl: judged.range_tolerance(),
    }
}

// The five flags, each after a space.
#[tactic(auto, unfolding(crate::specs::Values::flag_bytes), using(decimal::proofs::Put::put_then))]
fn put_flags(out: &mut [u8], at: usize, v: Values) -> usize
    requires { at + 10 ≤ length out.old }
    ensures { Put out.old at (flag_bytes v) out.new result }
{
    let a = decimal::put_flag(out, at, v.al);
    let b = decimal::put_flag(out, a, v.tl);
    let c = decimal::put_flag(out, b, v.run);
    let d = decimal::put_flag(out, c, v.ral);
    decimal::put_flag(out, d, v.rtl)
}

// The output line from position at on, line feed included: the position behind it.
#[tactic(auto, using(decimal::proofs::Show::width_5, decimal::proofs::Signs::width_signed, crate::proofs::Lines::flags_length))]
pub fn write_values(out: &mut [u8], at: usize, v: Values) -> usize
    requires { (at + 40 ≤ length out.old) × SmallValues v }
    ensures { (Put out.old at (line_of v) out.new result) × (result ≤ at + 40) }
{
    let a = decimal::put_number(out, at, v.week);
    let b = decimal::put_field(out, a, v.count);
    let c = decimal::put_signed(out, b, v.plot);
    let d = decimal::put_field(out, c, v.range);
    let e = put_flags(out, d, v);
    decimal::put_byte(out, e, b'\n')
}
