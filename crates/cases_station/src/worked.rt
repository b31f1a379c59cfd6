// Cases of sheets, lines and market tests that carry no star.
use super::calls::Station;
use super::say;
use station_rules::{Basis, Scan};
use std::io;

pub(crate) fn deviations(rt: &impl Print) -> io::Result<()> {
    say::line(
        rt,
        "sheets: 1300 and 1331 without a third; deviations 82; 102, again 20; 102, again 102",
    )?;
    let s = Station::fresh(0);
    s.but_last(rt, 1, 1000, [1000, 1300, 1331, -1, -1, -1])?;
    s.but_last(rt, 1, 1000, [1000, 1041, 1041, -1, -1, -1])?;
    s.but_last(rt, 1, 1000, [1000, 1051, 1051, -1, 1010, 1010])?;
    s.but_last(rt, 1, 1000, [1000, 1051, 1051, -1, 1051, 1051])?;
    Ok(())
}

pub(crate) fn adjustments(rt: &impl Print) -> io::Result<()> {
    say::line(
        rt,
        "new, S -126; new, S 70; after it S 99, 14 days later and 15 days later",
    )?;
    let s = Station::fresh(0);
    s.but_last(rt, 1, 990, [1000, 987, 987, -1, -1, -1])?;
    let open = s.but_last(rt, 1, 1006, [1000, 1005, 1005, -1, -1, -1])?;
    open.but_last(rt, 15, 1008, [1000, 1009, 1010, -1, -1, -1])?;
    open.but_last(rt, 16, 1008, [1000, 1009, 1010, -1, -1, -1])?;
    Ok(())
}

pub(crate) fn figures(rt: &impl Print) -> io::Result<()> {
    say::line(
        rt,
        "open; 100 standard; h 1345 standard; h 8800 dry; h 8801 dry",
    )?;
    let s = Station::fresh(0).alike(rt, 1, 1000, 1000)?;
    s.market(rt, 1, Scan::Wheat(100.0), Basis::Standard)?;
    s.market(rt, 1, Scan::Wheat(13.45), Basis::Standard)?;
    s.market(rt, 1, Scan::Wheat(88.0), Basis::Dry)?;
    s.market(rt, 1, Scan::Wheat(88.01), Basis::Dry)?;
    Ok(())
}

pub(crate) fn days_and_bases(rt: &impl Print) -> io::Result<()> {
    say::line(
        rt,
        "open; h 1200 at 1000; as-is 1350; a set 7 days old; 8 days old",
    )?;
    let s = Station::fresh(0).alike(rt, 1, 1000, 1000)?;
    s.market(rt, 1, Scan::Wheat(12.0), Basis::Specified(1000))?;
    s.market(rt, 1, Scan::Wheat(12.0), Basis::AsIs(1350))?;
    s.market(rt, 8, Scan::Wheat(12.0), Basis::Standard)?;
    s.market(rt, 9, Scan::Wheat(12.0), Basis::Standard)?;
    Ok(())
}
