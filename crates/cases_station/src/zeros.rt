// Zero sets are passed over: of the five by the non-zero sets, while the two, the three and a market test take the newest.
use super::calls::Station;
use super::{say, sheets};
use station_rules::{Basis, Scan};
use std::io;

impl Station {
    // A sheet of S 37.
    fn s37(self, rt: &impl Print, day: u32) -> io::Result<Station> {
        self.but_last(rt, day, 1003, [1000, 1003, 1004, -1, -1, -1])
    }

    // A sheet of S 60.
    fn s60(self, rt: &impl Print, day: u32) -> io::Result<Station> {
        self.alike(rt, day, 1000, 1005)
    }

    // A sheet of S 0.
    fn zero(self, rt: &impl Print, day: u32) -> io::Result<Station> {
        self.alike(rt, day, 1000, 1000)
    }

    // Three sheets of S 37.
    fn three(self, rt: &impl Print, day: u32) -> io::Result<Station> {
        self.s37(rt, day)?.s37(rt, day)?.s37(rt, day)
    }
}

pub(crate) fn between(rt: &impl Print) -> io::Result<()> {
    say::line(rt, "S 37, 37, 0, 37, 37, 37: the five adjust by 3")?;
    let two = Station::fresh(0).s37(rt, 1)?.s37(rt, 2)?;
    let four = two.zero(rt, 3)?.s37(rt, 4)?.s37(rt, 5)?;
    four.s37(rt, 6)?;
    Ok(())
}

pub(crate) fn at_hand(rt: &impl Print) -> io::Result<()> {
    say::line(rt, "four of S 60; then 0; then -1, and 60 after it")?;
    let two = Station::fresh(0).s60(rt, 1)?.s60(rt, 2)?;
    let four = two.s60(rt, 3)?.s60(rt, 4)?;
    four.zero(rt, 5)?;
    let other = four.but_last(rt, 5, 1000, [1000, 1000, 999, -1, -1, -1])?;
    other.s60(rt, 6)?;
    Ok(())
}

pub(crate) fn newest(rt: &impl Print) -> io::Result<()> {
    say::line(rt, "S 70, 0, 99; S 5 and then 0, tested 7 and 8 days later")?;
    let s = Station::fresh(0);
    let past = s.but_last(rt, 1, 1006, [1000, 1005, 1005, -1, -1, -1])?;
    let zero = past.zero(rt, 2)?;
    zero.but_last(rt, 3, 1008, [1000, 1009, 1010, -1, -1, -1])?;
    let five = s.but_last(rt, 0, 1000, [1000, 1002, 1003, -1, -1, -1])?;
    let six = five.zero(rt, 6)?;
    six.market(rt, 13, Scan::Wheat(13.54), Basis::Dry)?;
    six.market(rt, 14, Scan::Wheat(13.54), Basis::Dry)?;
    Ok(())
}

pub(crate) fn ages(rt: &impl Print) -> io::Result<()> {
    say::line(
        rt,
        "four of S 37 on day 0, then two of 0; S 37 on day 14; on day 15",
    )?;
    let four = Station::fresh(0).three(rt, 0)?.s37(rt, 0)?;
    let zeros = four.zero(rt, 13)?.zero(rt, 13)?;
    zeros.s37(rt, 14)?;
    zeros.s37(rt, 15)?;
    Ok(())
}

pub(crate) fn emptied(rt: &impl Print) -> io::Result<()> {
    say::line(
        rt,
        "four of S 37, repaired, S 37; shut, checked by S 0 and by S 37",
    )?;
    let four = Station::fresh(0).three(rt, 1)?.s37(rt, 1)?;
    four.repair(rt, 2)?.s37(rt, 2)?;
    let shut = four.sheet(rt, 2, 0, &sheets::apart(1100, 900))?;
    shut.zero(rt, 3)?.three(rt, 3)?.s37(rt, 3)?;
    shut.s37(rt, 3)?.three(rt, 3)?.s37(rt, 3)?;
    Ok(())
}

// The count of the newest sets stands at place 4 of a station, that of the non-zero ones at 11, the S of the first of these at 13.
pub(crate) fn unsound(rt: &impl Print) -> io::Result<()> {
    say::line(
        rt,
        "number 0: three newest sets; five non-zero ones; one of these with S 0",
    )?;
    let open = Station::fresh(0).s37(rt, 1)?;
    let mut three = open;
    three.places[4] = 3;
    three.repair(rt, 1)?;
    let mut five = open;
    five.places[11] = 5;
    five.repair(rt, 1)?;
    let mut zero = open;
    zero.places[13] = 0;
    zero.repair(rt, 1)?;
    Ok(())
}
