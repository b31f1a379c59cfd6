// Whole lists of calls, each on the places that the call before left.
use super::calls::Station;
use super::{say, sheets};
use station_rules::{Basis, CornSet, Scan};
use std::io;

// Adjusted by S 122, its check due, opened by its check, certified with the new intercept.
pub(crate) fn adjusted(rt: &impl Print) -> io::Result<Station> {
    say::line(rt, "adjust, check, certify")?;
    let new = Station::open(rt, 0)?;
    let due = new.but_last(rt, 1, 1010, [1000, 1011, 1011, -1, -1, -1])?;
    let refused = due.market(rt, 1, Scan::Wheat(13.5), Basis::Standard)?;
    let open = refused.but_last(rt, 2, 1010, [1000, 1011, 1011, -1, -1, -1])?;
    open.market(rt, 3, Scan::Wheat(13.5), Basis::Standard)
}

// A day before the last, a repair, new, opened by a sheet.
pub(crate) fn repaired(rt: &impl Print, s: Station) -> io::Result<()> {
    say::line(rt, "a day before the last, repair, check, certify")?;
    let early = s.but_last(rt, 2, 1010, [1000, 1011, 1011, -1, -1, -1])?;
    let new = early.repair(rt, 4)?;
    let refused = new.market(rt, 4, Scan::Wheat(13.5), Basis::Standard)?;
    let open = refused.but_last(rt, 5, 1010, [1000, 1011, 1011, -1, -1, -1])?;
    open.market(rt, 5, Scan::Wheat(13.5), Basis::Dry)?;
    Ok(())
}

// Every sample deviates, and again: N = 0 shuts an open line, and its check opens it.
pub(crate) fn shut_by_none(rt: &impl Print) -> io::Result<()> {
    say::line(rt, "shut by N = 0")?;
    let new = Station::open(rt, 0)?;
    let open = new.alike(rt, 1, 1000, 1000)?;
    let shut = open.sheet(rt, 2, 0, &sheets::apart(1100, 900))?;
    let refused = shut.market(rt, 2, Scan::Wheat(12.0), Basis::Dry)?;
    let checked = refused.alike(rt, 3, 1000, 1000)?;
    checked.market(rt, 3, Scan::Wheat(12.0), Basis::Dry)?;
    Ok(())
}

// An adjustment to 1000 stands; one that would go to 1011 shuts the line, and the intercept stays.
pub(crate) fn shut_by_bound(rt: &impl Print) -> io::Result<()> {
    say::line(rt, "shut by the bound")?;
    let new = Station::open(rt, 0)?;
    let most = new.alike(rt, 1, 1000, 0)?;
    let open = most.alike(rt, 2, 1000, 0)?;
    let shut = open.alike(rt, 3, 1011, 0)?;
    let refused = shut.market(rt, 3, Scan::Wheat(12.0), Basis::Standard)?;
    let checked = refused.alike(rt, 4, 1000, 0)?;
    checked.market(rt, 4, Scan::Wheat(12.0), Basis::Standard)?;
    Ok(())
}

// Corn: each line has its own sets and intercept, and the corn set's field of the asked line is read.
pub(crate) fn corn(rt: &impl Print) -> io::Result<()> {
    say::line(rt, "corn: oil, starch, starch checked")?;
    let new = Station::open(rt, 1)?;
    let oil = new.corn_sheet(rt, 1, 1, 1000)?;
    let due = oil.corn_sheet(rt, 1, 2, 1036)?;
    let starch = due.corn_sheet(rt, 2, 2, 1036)?;
    corn_tests(rt, starch)?;
    Ok(())
}

fn corn_tests(rt: &impl Print, s: Station) -> io::Result<()> {
    say::line(rt, "corn certified: oil, starch; protein is new")?;
    let set = CornSet {
        protein: 8.5,
        oil: 4.26,
        starch: 70.0,
    };
    let one = s.corn_market(rt, 3, 1, set)?;
    let two = one.corn_market(rt, 3, 2, set)?;
    two.corn_market(rt, 3, 0, set)?;
    Ok(())
}

// Five sets of S 37 on one side of zero.
pub(crate) fn five_sets(rt: &impl Print) -> io::Result<()> {
    say::line(rt, "five sets on one side")?;
    let mut s = Station::open(rt, 0)?;
    for day in 1..=5 {
        s = s.but_last(rt, day, 1003, [1000, 1003, 1004, -1, -1, -1])?;
    }
    Ok(())
}
