// A station in its 68 places: what is read there, and what an accepted call writes.

#![tactic(auto)]

ghost use Rattle.std.specs.Prelude.{◌≡◌, ◌≤◌, ◌<◌, length};
ghost use Rattle.whole.specs.Bounds.{Within};
ghost use Rattle.station_rules.specs.Lines.{change_of};
ghost use Rattle.station_rules.specs.Stations.{line_of};
ghost use Rattle.station_rules.specs.Places.{line_places, station_in};
ghost use Rattle.station_rules.specs.InPlace.{sheet_line, with_day, with_line, with_repaired};

use line::HeldSet;
use station_rules::{DAY_PLACE, FIRST_LINE, LINE_PLACES, Line, ROW_PLACE, Verdict};

// A slice of 68 in each contract, and no array: the calls are lent a slice, whose length is one of the things that soundness tests, and an array's Option had to be taken apart besides in each of them.
// A line's number below 3 stands in three: C names a line by its number, and a type for it would be made and taken apart once in each.

// ---- read

#[tactic(auto, using(whole::proofs::PlaceLaws::natural_bits), unfolding(station_rules::specs::Places::station_in, station_rules::specs::Places::row_in))]
pub fn row_of(state: &[i32]) -> u32
    requires { length state.now ≡ 68 }
    ensures { result ≡ (station_in state.now).row }
{
    state[ROW_PLACE].cast_unsigned()
}

#[tactic(auto, using(whole::proofs::PlaceLaws::natural_bits), unfolding(station_rules::specs::Places::station_in))]
pub fn day_of(state: &[i32]) -> u32
    requires { length state.now ≡ 68 }
    ensures { result ≡ (station_in state.now).day }
{
    state[DAY_PLACE].cast_unsigned()
}

pub fn line_of(state: &[i32], line: usize) -> Line
    requires { (length state.now ≡ 68) × (line < 3) }
    ensures { result ≡ line_of (station_in state.now) line }
{
    let start = FIRST_LINE + LINE_PLACES * line;
    line::line_in(&state[start..start + LINE_PLACES])
}

// ---- written

pub fn put_day(state: &mut [i32], day: u32)
    requires { (length state.old ≡ 68) × (day ≤ 99999) }
    ensures { state.new ≡ with_day state.old day }
{
    state[DAY_PLACE] = day as i32;
}

// A line after a sheet.
pub fn enter_sheet(state: &mut [i32], line: usize, p: HeldSet, v: Verdict)
    requires state_len { (length state.old ≡ 68) × (line < 3) }
    requires within { (Within 1000 1000 (line_of (station_in state.old) line).intercept) × (Within 2000000 2000000 (change_of v)) }
    ensures { state.new ≡ with_line state.old line (sheet_line (line_places state.old line) p.set v) }
{
    let start = FIRST_LINE + LINE_PLACES * line;
    line::enter_sheet(&mut state[start..start + LINE_PLACES], p, v);
}

// A line after a repair.
pub fn repair_line(state: &mut [i32], line: usize)
    requires { (length state.old ≡ 68) × (line < 3) }
    ensures { state.new ≡ with_repaired state.old line }
{
    let start = FIRST_LINE + LINE_PLACES * line;
    line::repair(&mut state[start..start + LINE_PLACES]);
}
