// The calendar's cases, run: dates at its edges, weekdays, working days, and when results are due. Each call's answer is printed.

#![tactic(auto)]

use calendar_rules::{Date, Refusal};
use std::io;

fn refused(rt: &impl Print, refusal: Refusal) -> io::Result<()> {
    print!(rt; " refused {}", u32::from(refusal))
}

// ---- dates and days

// The weekday and the date of a day.
fn told(rt: &impl Print, day: u32) -> io::Result<()> {
    match calendar::weekday(day) {
        Ok(weekday) => print!(rt; " weekday {}", u32::from(weekday))?,
        Err(refusal) => refused(rt, refusal)?,
    }
    match calendar::date_from_day(day) {
        Ok(date) => print!(rt; " date {} {} {}", date.year, date.month, date.day),
        Err(refusal) => refused(rt, refusal),
    }
}

// A date's day, its weekday, and the date that it turns back into.
fn on(rt: &impl Print, year: u32, month: u32, day: u32) -> io::Result<()> {
    print!(rt; "  {year} {month} {day}:")?;
    match calendar::day_from_date(Date { year, month, day }) {
        Ok(found) => {
            print!(rt; " day {found}")?;
            told(rt, found)?;
        }
        Err(refusal) => refused(rt, refusal)?,
    }
    println!(rt)
}

fn of_day(rt: &impl Print, day: u32) -> io::Result<()> {
    print!(rt; "  day {day}:")?;
    told(rt, day)?;
    println!(rt)
}

fn dates(rt: &impl Print) -> io::Result<()> {
    println!(rt; "dates")?;
    on(rt, 2000, 1, 1)?;
    on(rt, 2000, 2, 29)?;
    on(rt, 2000, 3, 1)?;
    on(rt, 2001, 2, 29)?;
    on(rt, 2004, 2, 29)?;
    on(rt, 2026, 11, 17)?;
    on(rt, 2099, 12, 31)?;
    on(rt, 2100, 2, 28)?;
    on(rt, 2100, 2, 29)?;
    on(rt, 2100, 3, 1)?;
    on(rt, 2200, 2, 29)?;
    on(rt, 2273, 10, 15)
}

fn no_dates(rt: &impl Print) -> io::Result<()> {
    println!(rt; "no dates, and days at the end")?;
    on(rt, 1999, 12, 31)?;
    on(rt, 2026, 0, 1)?;
    on(rt, 2026, 13, 1)?;
    on(rt, 2026, 1, 0)?;
    on(rt, 2026, 1, 32)?;
    on(rt, 2026, 4, 31)?;
    on(rt, 2273, 10, 16)?;
    on(rt, 4294967295, 1, 1)?;
    of_day(rt, 99999)?;
    of_day(rt, 100000)?;
    of_day(rt, 4294967295)
}

// ---- working days

fn found(rt: &impl Print, answer: Result<u32, Refusal>) -> io::Result<()> {
    print!(rt; ":")?;
    match answer {
        Ok(day) => print!(rt; " day {day}")?,
        Err(refusal) => refused(rt, refusal)?,
    }
    println!(rt)
}

fn after(rt: &impl Print, day: u32, count: u32, holidays: &[i32]) -> io::Result<()> {
    print!(rt; "  day {day} and {count}")?;
    found(rt, calendar::working_day(day, count, holidays))
}

fn due(rt: &impl Print, day: u32, holidays: &[i32]) -> io::Result<()> {
    print!(rt; "  day {day} and its results")?;
    found(rt, calendar::results_due(day, holidays))
}

// Day 0 is a Saturday, day 2 a Monday, day 6 a Friday.
fn counted(rt: &impl Print) -> io::Result<()> {
    println!(rt; "no holidays")?;
    after(rt, 0, 0, &[])?;
    after(rt, 1, 0, &[])?;
    after(rt, 0, 1, &[])?;
    after(rt, 2, 1, &[])?;
    after(rt, 6, 1, &[])?;
    after(rt, 6, 5, &[])?;
    after(rt, 0, 71428, &[])?;
    after(rt, 0, 71429, &[])?;
    after(rt, 0, 4294967295, &[])?;
    due(rt, 5, &[])?;
    due(rt, 6, &[])
}

fn passed_over(rt: &impl Print) -> io::Result<()> {
    println!(rt; "holidays 2, 3, 7, 9 and 10")?;
    let holidays = [2, 3, 7, 9, 10];
    after(rt, 3, 0, &holidays)?;
    after(rt, 1, 1, &holidays)?;
    after(rt, 2, 1, &holidays)?;
    after(rt, 6, 1, &holidays)?;
    after(rt, 5, 6, &holidays)?;
    due(rt, 6, &holidays)
}

fn at_the_end(rt: &impl Print) -> io::Result<()> {
    println!(rt; "holiday 99999")?;
    let last = [99999];
    after(rt, 99997, 1, &last)?;
    after(rt, 99998, 1, &last)?;
    after(rt, 99999, 0, &last)?;
    due(rt, 99996, &last)?;
    due(rt, 99997, &last)
}

fn refusals(rt: &impl Print) -> io::Result<()> {
    println!(rt; "holidays that are none: 5 and 5; 5 and 4; -1; 5 and 100000")?;
    let twice = [5, 5];
    after(rt, 100000, 1, &twice)?;
    after(rt, 99999, 1, &twice)?;
    after(rt, 0, 0, &twice)?;
    let falling = [5, 4];
    after(rt, 0, 0, &falling)?;
    let negative = [-1];
    after(rt, 0, 1, &negative)?;
    let beyond = [5, 100000];
    after(rt, 0, 1, &beyond)?;
    due(rt, 0, &beyond)
}

fn main(rt: HostRuntime) -> io::Result<()> {
    dates(&rt)?;
    no_dates(&rt)?;
    counted(&rt)?;
    passed_over(&rt)?;
    at_the_end(&rt)?;
    refusals(&rt)
}
