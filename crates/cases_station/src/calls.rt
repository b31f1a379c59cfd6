// A station in its places, and the calls on it: each prints its answer and gives the station that it leaves.
use super::sheets::{CORN_NUMBERS, Sample, WHEAT_NUMBERS};
use super::{say, sheets};
use station_rules::{Asked, Basis, CornSet, STATION_PLACES, Scan, WheatClass};
use std::io;

// A station in its places.
#[derive(Clone, Copy, PartialEq)]
pub(crate) struct Station {
    pub(crate) places: [i32; STATION_PLACES],
}

// What a market test asks for.
#[derive(Clone, Copy)]
pub(crate) struct Test {
    line: usize,
    scan: Scan,
    asked: Asked,
    basis: Basis,
}

impl Test {
    // Gluten of a class, on line 0.
    pub(crate) fn gluten(class: WheatClass, scan: Scan, basis: Basis) -> Test {
        Test {
            line: 0,
            scan,
            asked: Asked::Gluten(class),
            basis,
        }
    }

    // The same of another line.
    pub(crate) fn on(self, line: usize) -> Test {
        Test { line, ..self }
    }
}

impl Station {
    // Opened without a word. The row is the number that an opening takes.
    pub(crate) fn fresh(row: usize) -> Station {
        let mut places = [0; STATION_PLACES];
        let _answer = station::open(&mut places, row);
        Station { places }
    }

    pub(crate) fn open(rt: &impl Print, row: usize) -> io::Result<Station> {
        let mut places = [0; STATION_PLACES];
        let answer = station::open(&mut places, row);
        say::opening(rt, row, answer)?;
        Ok(Station { places })
    }

    pub(crate) fn sheet(
        self,
        rt: &impl Print,
        day: u32,
        line: usize,
        numbers: &[i32],
    ) -> io::Result<Station> {
        let mut places = self.places;
        let answer = station::sheet(&mut places, day, line, numbers);
        say::answer(rt, day, line, answer)?;
        Ok(Station { places })
    }

    // A wheat sheet of six samples alike; a corn sheet below is another grain's, and names its line.
    pub(crate) fn alike(
        self,
        rt: &impl Print,
        day: u32,
        baseline: i32,
        measured: i32,
    ) -> io::Result<Station> {
        let numbers: [i32; WHEAT_NUMBERS] = sheets::alike(baseline, measured);
        self.sheet(rt, day, 0, &numbers)
    }

    // A wheat sheet of five samples alike, with baseline 1000, and another last one.
    pub(crate) fn but_last(
        self,
        rt: &impl Print,
        day: u32,
        measured: i32,
        last: Sample,
    ) -> io::Result<Station> {
        self.sheet(rt, day, 0, &sheets::but_last(measured, last))
    }

    // A corn sheet of four samples alike, with baseline 1000.
    pub(crate) fn corn_sheet(
        self,
        rt: &impl Print,
        day: u32,
        line: usize,
        measured: i32,
    ) -> io::Result<Station> {
        let numbers: [i32; CORN_NUMBERS] = sheets::alike(1000, measured);
        self.sheet(rt, day, line, &numbers)
    }

    pub(crate) fn repair(self, rt: &impl Print, day: u32) -> io::Result<Station> {
        let mut places = self.places;
        let answer = station::repair(&mut places, day);
        say::repair(rt, day, answer)?;
        Ok(Station { places })
    }

    pub(crate) fn test(self, rt: &impl Print, day: u32, test: Test) -> io::Result<Station> {
        let Test {
            line,
            scan,
            asked,
            basis,
        } = test;
        let mut places = self.places;
        let answer = market::market(&mut places, day, line, scan, asked, basis);
        say::answer(rt, day, line, answer)?;
        Ok(Station { places })
    }

    // The figure of line 0 asked for.
    pub(crate) fn market(
        self,
        rt: &impl Print,
        day: u32,
        scan: Scan,
        basis: Basis,
    ) -> io::Result<Station> {
        let figure = Test {
            line: 0,
            scan,
            asked: Asked::LineFigure,
            basis,
        };
        self.test(rt, day, figure)
    }

    // A corn line's figure asked for, at its standard basis.
    pub(crate) fn corn_market(
        self,
        rt: &impl Print,
        day: u32,
        line: usize,
        set: CornSet,
    ) -> io::Result<Station> {
        let figure = Test {
            line,
            scan: Scan::Corn(set),
            asked: Asked::LineFigure,
            basis: Basis::Standard,
        };
        self.test(rt, day, figure)
    }
}
