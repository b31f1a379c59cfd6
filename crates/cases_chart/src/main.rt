// The chart cases that carry no star, run: runs, what sets plot, which held plots are sound. What is charted is named; then each set's output line is written, or its refusal.

#![tactic(auto)]

use chart_rules::{CHART_PLACES, FIRST_SET, HELD_PLACE, LINE_ROOM, Refusal, WEEK_PLACE};
use std::io;
use std::io::Write;

// Five pairs whose differences sum to 53, 52, 98, 40, 2 and 3.
const SUM_53: [i32; 10] = [1013, 1000, 1010, 1000, 1010, 1000, 1010, 1000, 1010, 1000];

const SUM_52: [i32; 10] = [1012, 1000, 1010, 1000, 1010, 1000, 1010, 1000, 1010, 1000];

const SUM_98: [i32; 10] = [1022, 1000, 1019, 1000, 1019, 1000, 1019, 1000, 1019, 1000];

const SUM_40: [i32; 10] = [1008, 1000, 1008, 1000, 1008, 1000, 1008, 1000, 1008, 1000];

const SUM_2: [i32; 10] = [1002, 1000, 1000, 1000, 1000, 1000, 1000, 1000, 1000, 1000];

const SUM_3: [i32; 10] = [1003, 1000, 1000, 1000, 1000, 1000, 1000, 1000, 1000, 1000];

// A fresh chart of wheat.
fn wheat() -> [i32; CHART_PLACES] {
    let mut state = [0i32; CHART_PLACES];
    // row 0 exists, so it opens
    let _ = chart::open(&mut state, 0);
    state
}

// A chart of wheat that holds a set of five pairs, of week 1, with this plot.
fn holding(plot: i32) -> [i32; CHART_PLACES] {
    let mut state = wheat();
    state[WEEK_PLACE] = 1;
    state[HELD_PLACE] = 1;
    state[FIRST_SET] = 5;
    state[FIRST_SET + 1] = plot;
    state
}

// The same set in weeks from first to last on a chart, and their lines written.
fn weeks(
    to: &mut impl Write,
    state: &mut [i32; CHART_PLACES],
    first: u32,
    last: u32,
    numbers: &[i32],
) -> io::Result<()> {
    for week in first..=last {
        let mut out = [0u8; LINE_ROOM];
        match chart::chart_set(state, week, numbers, &mut out) {
            Ok(charted) => to.write_all(&out[..charted.length])?,
            Err(Refusal::UnsoundChart) => to.write_all(b"refused 0\n")?,
            Err(_) => to.write_all(b"refused\n")?,
        }
    }
    Ok(())
}

// A set in week 4 behind one that is charted in weeks 1 to 3, on a fresh chart.
fn behind(to: &mut impl Write, three: &[i32], numbers: &[i32]) -> io::Result<()> {
    let mut state = wheat();
    weeks(to, &mut state, 1, 3, three)?;
    weeks(to, &mut state, 4, 4, numbers)
}

fn runs(to: &mut impl Write) -> io::Result<()> {
    to.write_all(b"four of 53\n")?;
    behind(to, &SUM_53, &SUM_53)?;
    to.write_all(b"four of 52\n")?;
    behind(to, &SUM_52, &SUM_52)?;
    to.write_all(b"three of 52, then 53\n")?;
    behind(to, &SUM_52, &SUM_53)?;
    to.write_all(b"three of 98, then 2\n")?;
    behind(to, &SUM_98, &SUM_2)?;
    to.write_all(b"three of 98, then 3\n")?;
    behind(to, &SUM_98, &SUM_3)?;
    to.write_all(b"three of 40, then one pair of 19\n")?;
    behind(to, &SUM_40, &[1019, 1000])
}

fn plots(to: &mut impl Write) -> io::Result<()> {
    let mut state = wheat();
    to.write_all(b"two pairs of sum 39, of sum -39, a half of the monitor mean\n")?;
    weeks(to, &mut state, 1, 1, &[1020, 1000, 1019, 1000])?;
    weeks(to, &mut state, 2, 2, &[980, 1000, 981, 1000])?;
    weeks(to, &mut state, 3, 3, &[1000, 1000, 1000, 1001])?;
    to.write_all(b"five pairs of sum 4, of sum 1\n")?;
    let sum_4 = [1001, 999, 1001, 999, 1000, 1000, 1000, 1000, 1000, 1000];
    weeks(to, &mut state, 4, 4, &sum_4)?;
    let sum_1 = [1003, 1002, 1000, 1000, 1000, 1000, 1000, 1000, 1000, 1000];
    weeks(to, &mut state, 5, 5, &sum_1)?;
    to.write_all(b"one pair of 10000, of -10000\n")?;
    weeks(to, &mut state, 6, 6, &[10000, 0])?;
    weeks(to, &mut state, 7, 7, &[0, 10000])
}

// A set behind a held plot.
fn bounds(to: &mut impl Write) -> io::Result<()> {
    to.write_all(b"a held plot of 10000, of 10001, of -10000, of -10001\n")?;
    weeks(to, &mut holding(10000), 2, 2, &SUM_53)?;
    weeks(to, &mut holding(10001), 2, 2, &SUM_53)?;
    weeks(to, &mut holding(-10000), 2, 2, &SUM_53)?;
    weeks(to, &mut holding(-10001), 2, 2, &SUM_53)
}

fn main(rt: HostRuntime) -> io::Result<()> {
    let mut to = rt.stdout();
    runs(&mut to)?;
    plots(&mut to)?;
    bounds(&mut to)
}
