// Each number of refusal once, 0 to 14 in their order, with 25 and 26 beside 12; 23 and 24 are among the cases of gluten.
use super::calls::Station;
use super::{say, sheets};
use station_rules::{Basis, Scan};
use std::io;

pub(crate) fn stations(rt: &impl Print) -> io::Result<()> {
    say::line(rt, "numbers 0 to 2: a station of row 2; row 2; day 100000")?;
    let s = Station::fresh(0);
    let mut unsound = s;
    unsound.places[0] = 2;
    unsound.repair(rt, 1)?;
    Station::open(rt, 2)?;
    s.repair(rt, 100000)?;
    Ok(())
}

pub(crate) fn sizes(rt: &impl Print) -> io::Result<()> {
    say::line(rt, "numbers 3 and 4: line 3 of corn; 36 numbers for corn")?;
    let s = Station::fresh(1);
    s.corn_sheet(rt, 1, 3, 1000)?;
    s.alike(rt, 1, 1000, 1000)?;
    Ok(())
}

pub(crate) fn sheet_numbers(rt: &impl Print) -> io::Result<()> {
    say::line(
        rt,
        "numbers 5 to 7: a number 10001; a third missing; an again pair missing",
    )?;
    let s = Station::fresh(0);
    s.but_last(rt, 1, 1000, [1000, 10001, 10001, -1, -1, -1])?;
    s.but_last(rt, 1, 1000, [1000, 1000, 1031, -1, -1, -1])?;
    s.but_last(rt, 1, 1000, [1000, 1051, 1051, -1, -1, -1])?;
    Ok(())
}

pub(crate) fn scans(rt: &impl Print) -> io::Result<Station> {
    say::line(
        rt,
        "numbers 8 to 11 on a line that an S of 132 left adjusted: fault 0; above 100; basis -1; h -11",
    )?;
    let due = Station::fresh(0).alike(rt, 1, 1000, 1011)?;
    due.market(rt, 1, Scan::Fault(0), Basis::Dry)?;
    due.market(rt, 1, Scan::Wheat(100.5), Basis::Dry)?;
    due.market(rt, 1, Scan::Wheat(12.0), Basis::Specified(-1))?;
    due.market(rt, 1, Scan::Wheat(0.0), Basis::Dry)
}

pub(crate) fn lines(rt: &impl Print, due: Station) -> io::Result<()> {
    say::line(
        rt,
        "numbers 12, 25, 26, 13, 14: new; adjusted; shut; checked, a set 8 days old; h 8801 dry",
    )?;
    Station::fresh(0).market(rt, 1, Scan::Wheat(12.0), Basis::Dry)?;
    due.market(rt, 1, Scan::Wheat(12.0), Basis::Dry)?;
    let shut = due.sheet(rt, 1, 0, &sheets::apart(1100, 900))?;
    shut.market(rt, 1, Scan::Wheat(12.0), Basis::Dry)?;
    let open = due.alike(rt, 1, 1000, 1011)?;
    open.market(rt, 9, Scan::Wheat(12.0), Basis::Dry)?;
    open.market(rt, 1, Scan::Wheat(88.12), Basis::Dry)?;
    Ok(())
}
