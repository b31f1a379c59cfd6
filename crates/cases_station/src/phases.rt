// Which state a line is in that isn't open: new (12), adjusted (25) or shut (26), as the newest sheet left it.
use super::calls::Station;
use super::{say, sheets};
use station_rules::{Basis, Scan};
use std::io;

impl Station {
    // A test of 12.00 percent, dry.
    fn tested(self, rt: &impl Print, day: u32) -> io::Result<Station> {
        self.market(rt, day, Scan::Wheat(12.0), Basis::Dry)
    }

    // A sheet of which no sample is kept.
    fn none_kept(self, rt: &impl Print, day: u32) -> io::Result<Station> {
        self.sheet(rt, day, 0, &sheets::apart(1100, 900))
    }
}

// The newest sheet decides, and a repair leaves it so.
pub(crate) fn in_turn(rt: &impl Print) -> io::Result<()> {
    say::line(
        rt,
        "new; adjusted; repaired; shut; repaired; shut again; adjusted by its check",
    )?;
    let new = Station::open(rt, 0)?.tested(rt, 0)?;
    let adjusted = new.alike(rt, 1, 1000, 1011)?.tested(rt, 1)?;
    let repaired = adjusted.repair(rt, 2)?.tested(rt, 2)?;
    let shut = repaired.none_kept(rt, 3)?.tested(rt, 3)?;
    let still = shut.repair(rt, 4)?.tested(rt, 4)?;
    let twice = still.none_kept(rt, 5)?.tested(rt, 5)?;
    twice.alike(rt, 6, 1000, 1022)?.tested(rt, 6)?;
    Ok(())
}

// A line that its check opened is new after a repair, whatever it was before.
pub(crate) fn opened_and_repaired(rt: &impl Print) -> io::Result<()> {
    say::line(rt, "shut, checked, certified, repaired: new")?;
    let shut = Station::open(rt, 0)?.none_kept(rt, 1)?;
    let open = shut.alike(rt, 2, 1000, 1000)?.tested(rt, 2)?;
    open.repair(rt, 3)?.tested(rt, 3)?;
    Ok(())
}

// A repaired line that was shut is judged by its check: S 72 is within the limit of one set, but not within the check's.
pub(crate) fn repaired_check(rt: &impl Print) -> io::Result<()> {
    say::line(rt, "shut, repaired, S 72: the check adjusts it")?;
    let shut = Station::open(rt, 0)?.none_kept(rt, 1)?;
    let adjusted = shut.repair(rt, 2)?.alike(rt, 3, 1000, 1006)?;
    adjusted.tested(rt, 3)?;
    Ok(())
}

// Numbers 11, 13 and 14 beside 25: intercept -10 and reading 5; 30 days later; 99.99 percent, dry above 100.
pub(crate) fn order(rt: &impl Print) -> io::Result<()> {
    say::line(rt, "adjusted by -10: reading 5; day 31; 99.99 dry")?;
    let adjusted = Station::open(rt, 0)?.but_last(rt, 1, 1010, [1000, 1011, 1011, -1, -1, -1])?;
    adjusted.market(rt, 1, Scan::Wheat(0.05), Basis::Dry)?;
    adjusted.tested(rt, 31)?;
    adjusted.market(rt, 1, Scan::Wheat(99.99), Basis::Dry)?;
    Ok(())
}
