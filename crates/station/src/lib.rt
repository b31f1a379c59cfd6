// A station's calls: opening, sheet, repair and check, on the station in its caller's places. Judged first, written
// last: a refused call writes nothing, but for a refused opening, which leaves a fresh station of row 0.
// Places, day, line and numbers stay parameters, as the exported functions hand them on from C: a struct of them would
// be put together only to be taken apart.

#![tactic(auto)]

ghost use Rattle.std.specs.Prelude.{◌≡◌, Ok, length, pos, replicate};
ghost use Rattle.station_rules.specs.InPlace.{open_in, sheet_in, repair_in};
ghost use Rattle.station_rules.specs.Places.{station_in};
ghost use Rattle.station_rules.specs.Stations.{check_of};
ghost use Rattle.station.specs.Accepted.{accepted_in, Acceptable, Ruled};

use line::{HeldSet, SoundLine};
use station_rules::{Outcome, PastSet, ROW_PLACE, Refusal, STATION_PLACES, Set};

// ---- opening

// Half of a fresh station's places.
const HALF: usize = STATION_PLACES / 2;

// Out of line: the halves, joined, would be zeroed by a call of memset, which the library would need from outside.
#[inline(never)]
fn put_zeros(half: &mut [i32])
    requires { length half.old ≡ 34 }
    ensures { half.new ≡ replicate 34 (pos 0) }
{
    half.fill(0);
}

// Every place is written: the row, and 0. The row is the number that C hands in.
pub fn open(state: &mut [i32; STATION_PLACES], row: usize) -> Result<(), Refusal>
    ensures { record { answer = result; places = state.new } ≡ open_in row }
{
    put_zeros(&mut state[..HALF]);
    put_zeros(&mut state[HALF..]);
    if !row_table::row_exists(row) {
        return Err(Refusal::UnknownRow);
    }
    state[ROW_PLACE] = row as i32;
    Ok(())
}

// ---- a sheet

// What the call's numbers come to: 0 and 2 to 7, else S and N.
fn judge(state: &[i32], day: u32, line: usize, numbers: &[i32]) -> Result<Set, Refusal>
    ensures { Ruled state.now day line numbers.now result }
{
    let entry = station_entry::judge_line(state, day, line)?;
    let limits = row_table::limits_of(entry.row, line);
    let samples = row_table::sample_count(entry.row) as usize;
    sheet::judge(limits, entry.sound.line.intercept, samples, numbers)
}

// An accepted sheet: its line after the set, the day, and the outcome.
fn accept(state: &mut [i32], day: u32, line: usize, set: Set) -> Outcome
    requires { Acceptable state.old day line set }
    ensures { record { answer = Ok result; places = state.new } ≡ accepted_in state.old day line set }
{
    let l = SoundLine {
        line: station_places::line_of(state, line),
    };
    let limits = row_table::limits_of(station_places::row_of(state), line);
    let v = line_verdict::verdict_on(limits, l, day, set);
    let p = HeldSet {
        set: PastSet {
            day,
            sum: set.sum,
            count: set.count,
        },
    };
    station_places::enter_sheet(state, line, p, v);
    station_places::put_day(state, day);
    Outcome {
        sum: set.sum,
        count: set.count,
        phase: line::phase_said(v),
        change: line::change_of(v),
    }
}

pub fn sheet(state: &mut [i32], day: u32, line: usize, numbers: &[i32]) -> Result<Outcome, Refusal>
    ensures { record { answer = result; places = state.new } ≡ sheet_in state.old day line numbers.now }
{
    let set = judge(state, day, line, numbers)?;
    Ok(accept(state, day, line, set))
}

// ---- a repair

// Each line by itself: the spare ones are written too, and no call loops over more than the row's lines.
pub fn repair(state: &mut [i32], day: u32) -> Result<(), Refusal>
    ensures { record { answer = result; places = state.new } ≡ repair_in state.old day }
{
    station_entry::judge_day(state, day)?;
    station_places::repair_line(state, 0);
    station_places::repair_line(state, 1);
    station_places::repair_line(state, 2);
    station_places::put_day(state, day);
    Ok(())
}

// ---- a check

// Number 0 alone: whether a station that was loaded may be used.
pub fn check(state: &[i32]) -> Result<(), Refusal>
    ensures { result ≡ check_of (station_in state.now) }
{
    if station_soundness::is_sound(state) {
        Ok(())
    } else {
        Err(Refusal::UnsoundStation)
    }
}
