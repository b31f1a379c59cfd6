// Wet gluten of hard red wheat: its intercept, its numbers, and a list of calls.
use super::calls::{Station, Test};
use super::say;
use station_rules::{Basis, CornSet, Scan, WheatClass, WheatSet};
use std::io;

fn scan(protein: f32, gluten: f32) -> Scan {
    Scan::WheatGluten(WheatSet { protein, gluten })
}

impl Station {
    // Gluten of Hard Red Winter at its standard basis.
    fn winter(self, rt: &impl Print, day: u32, gluten: f32) -> io::Result<Station> {
        let scan = scan(13.5, gluten);
        let test = Test::gluten(WheatClass::HardRedWinter, scan, Basis::Standard);
        self.test(rt, day, test)
    }

    // Gluten of Hard Red Spring on day 1.
    fn spring(self, rt: &impl Print, gluten: f32, basis: Basis) -> io::Result<Station> {
        let scan = scan(13.5, gluten);
        let test = Test::gluten(WheatClass::HardRedSpring, scan, basis);
        self.test(rt, 1, test)
    }
}

// A wheat line that is open with an intercept.
fn open_with(rt: &impl Print, intercept: i32) -> io::Result<Station> {
    let mut s = Station::fresh(0).alike(rt, 1, 1000, 1000)?;
    s.places[2] = intercept;
    Ok(s)
}

pub(crate) fn intercepts(rt: &impl Print) -> io::Result<()> {
    say::line(
        rt,
        "gluten 30.00 with protein intercepts 0, 500, -500; 69.71 and 69.72 with 1000",
    )?;
    open_with(rt, 0)?.winter(rt, 1, 30.0)?;
    open_with(rt, 500)?.winter(rt, 1, 30.0)?;
    open_with(rt, -500)?.winter(rt, 1, 30.0)?;
    open_with(rt, 1000)?.winter(rt, 1, 69.71)?;
    open_with(rt, 1000)?.winter(rt, 1, 69.72)?;
    Ok(())
}

// The intercept is derived from the whole protein intercept, not change by change: -10 and 21 give 33.
pub(crate) fn derived(rt: &impl Print) -> io::Result<()> {
    say::line(
        rt,
        "adjust by -10, then by 21; protein and gluten, of Hard Red Spring",
    )?;
    let new = Station::open(rt, 0)?;
    let due = new.but_last(rt, 1, 1010, [1000, 1011, 1011, -1, -1, -1])?;
    due.winter(rt, 1, 30.0)?;
    let again = due.alike(rt, 2, 1000, 989)?;
    let open = again.alike(rt, 3, 1000, 989)?;
    let tested = open.market(rt, 4, scan(13.5, 101.0), Basis::Dry)?;
    let spring = Test::gluten(
        WheatClass::HardRedSpring,
        scan(101.0, 30.0),
        Basis::Standard,
    );
    let spring = tested.test(rt, 5, spring)?;
    spring.winter(rt, 11, 30.0)?;
    Ok(())
}

// Gluten of a class that has none, dry.
fn other(scan: Scan) -> Test {
    Test::gluten(WheatClass::Other, scan, Basis::Dry)
}

pub(crate) fn scans(rt: &impl Print) -> io::Result<()> {
    say::line(
        rt,
        "gluten of a wheat value, of a fault; on wheat's line 1, on corn's line 2",
    )?;
    let s = open_with(rt, 0)?;
    s.test(rt, 1, other(Scan::Wheat(30.0)))?;
    s.test(rt, 1, other(Scan::Fault(3)))?;
    s.test(rt, 1, other(scan(13.5, 30.0)).on(1))?;
    let set = CornSet {
        protein: 8.0,
        oil: 4.0,
        starch: 70.0,
    };
    Station::fresh(1).test(rt, 1, other(Scan::Corn(set)).on(2))?;
    Ok(())
}

pub(crate) fn numbers(rt: &impl Print) -> io::Result<()> {
    say::line(
        rt,
        "numbers 23, 24 and 9: another class; dry, as-is, specified 1400 and 5001; above 100",
    )?;
    let s = open_with(rt, 0)?;
    s.test(rt, 1, other(scan(13.5, 101.0)))?;
    s.spring(rt, 101.0, Basis::Dry)?;
    s.spring(rt, 30.0, Basis::AsIs(1400))?;
    s.spring(rt, 30.0, Basis::Specified(1400))?;
    s.spring(rt, 30.0, Basis::Specified(5001))?;
    s.winter(rt, 1, 101.0)?;
    Ok(())
}
