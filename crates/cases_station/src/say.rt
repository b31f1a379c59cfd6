// An answer as a line of text: the call's day and line, then the refusal's number or the values. All of it comes from the call and its answer.
use station_rules::{CHECK_DUE, Certificate, OPEN, Outcome, Refusal};
use std::io;

fn refusal(rt: &impl Print, r: Refusal) -> io::Result<()> {
    println!(rt; ": refused {}", u32::from(r))
}

fn phase(p: u32) -> &'static str {
    match p {
        OPEN => "open",
        CHECK_DUE => "check due",
        _ => "no phase of an outcome",
    }
}

// What an accepted call gives, on the rest of its line.
pub(crate) trait Told {
    fn told(&self, rt: &impl Print) -> io::Result<()>;
}

// S, N, the phase after it and the intercept change.
impl Told for Outcome {
    fn told(&self, rt: &impl Print) -> io::Result<()> {
        println!(rt;
            ": sheet S {} N {} {} {}",
            self.sum,
            self.count,
            phase(self.phase),
            self.change
        )
    }
}

// The newest set's day, the intercept, B and the two figures.
impl Told for Certificate {
    fn told(&self, rt: &impl Print) -> io::Result<()> {
        println!(rt;
            ": certificate day {} intercept {} basis {} figures {} {}",
            self.day, self.intercept, self.basis, self.figure, self.converted
        )
    }
}

// A line of its own: what the calls below it are about, or what those above it came to.
pub(crate) fn line(rt: &impl Print, t: &str) -> io::Result<()> {
    println!(rt; "{t}")
}

// The answer of a sheet or a market test, after the day and the line that it names.
pub(crate) fn answer<T: Told + Drop>(
    rt: &impl Print,
    day: u32,
    line: usize,
    a: Result<T, Refusal>,
) -> io::Result<()> {
    print!(rt; "  day {day} line {line}")?;
    match a {
        Ok(given) => given.told(rt),
        Err(r) => refusal(rt, r),
    }
}

// The answer of a call that gives no values, told by what it did; an opening names its row before, by the number that it was asked for, and a repair its day.
fn done(rt: &impl Print, a: Result<(), Refusal>, did: &str) -> io::Result<()> {
    match a {
        Ok(()) => println!(rt; ": {did}"),
        Err(r) => refusal(rt, r),
    }
}

pub(crate) fn opening(rt: &impl Print, row: usize, a: Result<(), Refusal>) -> io::Result<()> {
    print!(rt; "  row {row}")?;
    done(rt, a, "opened")
}

pub(crate) fn repair(rt: &impl Print, day: u32, a: Result<(), Refusal>) -> io::Result<()> {
    print!(rt; "  day {day}")?;
    done(rt, a, "repaired")
}
