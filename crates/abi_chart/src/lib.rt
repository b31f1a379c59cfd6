// What the exported chart functions hand back: C has no `Result`, so these are small structs of 32-bit numbers.

#![tactic(auto)]

ghost use Rattle.std.specs.Prelude.{◌≡◌, ◌≤◌};
ghost use Rattle.abi_chart.specs.ChartAnswers.{set_refused, set_given, text_given, line_length, text_length};

use chart_rules::{Charted, Refusal, RefusedText};

// accepted is 1 or 0, number the refusal's; then what the set's output line says, the flags as 1 or 0, and its length in bytes.
#[repr(C)]
#[derive(Clone, Copy)]
pub struct GrainCharted {
    pub accepted: u32,
    pub number: u32,
    pub week: u32,
    pub count: u32,
    pub plot: i32,
    pub range: u32,
    pub al: u32,
    pub tl: u32,
    pub run: u32,
    pub ral: u32,
    pub rtl: u32,
    pub length: u32,
}

// accepted is 1 or 0, number the refusal's and line its text line; length is that of the output.
#[repr(C)]
#[derive(Clone, Copy)]
pub struct GrainWritten {
    pub accepted: u32,
    pub number: u32,
    pub line: u32,
    pub length: u32,
}

// ---- one set

fn refused_set(number: u32) -> GrainCharted
    ensures { result ≡ set_refused number }
{
    GrainCharted {
        accepted: 0,
        number,
        week: 0,
        count: 0,
        plot: 0,
        range: 0,
        al: 0,
        tl: 0,
        run: 0,
        ral: 0,
        rtl: 0,
        length: 0,
    }
}

// Not a From: the length fits by the bound that a line has.
pub fn charted(answer: Result<Charted, Refusal>) -> GrainCharted
    requires { line_length answer ≤ 40 }
    ensures { result ≡ set_given answer }
{
    match answer {
        Ok(Charted { values: v, length }) => GrainCharted {
            accepted: 1,
            number: 0,
            week: v.week,
            count: v.count,
            plot: v.plot,
            range: v.range,
            al: u32::from(v.al),
            tl: u32::from(v.tl),
            run: u32::from(v.run),
            ral: u32::from(v.ral),
            rtl: u32::from(v.rtl),
            length: length as u32,
        },
        Err(refusal) => refused_set(u32::from(refusal)),
    }
}

// ---- a whole text

// Not a From either, for the same reason.
pub fn written(answer: Result<usize, RefusedText>) -> GrainWritten
    requires { text_length answer ≤ 400000 }
    ensures { result ≡ text_given answer }
{
    match answer {
        Ok(n) => GrainWritten {
            accepted: 1,
            number: 0,
            line: 0,
            length: n as u32,
        },
        Err(refused) => GrainWritten {
            accepted: 0,
            number: u32::from(refused.refusal),
            line: refused.line,
            length: 0,
        },
    }
}
