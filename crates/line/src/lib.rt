// A line in its 22 places (docs/SPECIFICATION.md, "A line between sheets"): read, and written after a sheet or a repair.

#![tactic(auto)]

ghost use Rattle.std.specs.Prelude.{◌≡◌, ◌+◌, ◌<◌, ◌≤◌, length, pos, ◌+ℤ◌, take};
ghost use Rattle.whole.specs.Bounds.{Within};
ghost use Rattle.whole.specs.Places.{place};
ghost use Rattle.station_rules.specs.Places.{set_at, line_in};
ghost use Rattle.station_rules.specs.InPlace.{emptied_places, joined_places, opened_places, sheet_line, repaired_places};
ghost use Rattle.station_rules.specs.Lines.{change_of};
ghost use Rattle.station_rules.specs.Held.{phase_word, phase_said};
ghost use Rattle.line.specs.Ranges.{LineFits, SetFits};

use station_rules::{
    ADJUSTED_LINE, CHECK_DUE, FIRST_NEWEST, FIRST_NONZERO, INTERCEPT_PLACE, LINE_PLACES, Line,
    MOST_NEWEST, MOST_NONZERO, NEW_LINE, NEWEST_PLACE, NONZERO_PLACE, OPEN, OPEN_LINE, PHASE_PLACE,
    PastSet, SHUT_LINE, Verdict,
};
use whole::held;

// Where the sets after the first stand, in a line's places.
const SECOND_NEWEST: usize = FIRST_NEWEST + held::SET_PLACES;

const SECOND_NONZERO: usize = FIRST_NONZERO + held::SET_PLACES;

const THIRD_NONZERO: usize = SECOND_NONZERO + held::SET_PLACES;

const FOURTH_NONZERO: usize = THIRD_NONZERO + held::SET_PLACES;

// A sound station's line.
#[derive(Clone, Copy)]
pub struct SoundLine {
    pub line: Line,
    pub ghost fits: { LineFits line },
}

impl SoundLine {
    // Its newest sets, newest first.
    pub fn newest(&self) -> &[PastSet]
        ensures { result.now ≡ take self.now.line.newest_held self.now.line.newest }
    {
        &self.line.newest[..self.line.newest_held as usize]
    }

    // The newest of its sets that aren't zero, newest first.
    pub fn nonzero(&self) -> &[PastSet]
        ensures { result.now ≡ take self.now.line.nonzero_held self.now.line.nonzero }
    {
        &self.line.nonzero[..self.line.nonzero_held as usize]
    }
}

// A past set whose numbers the places hold.
#[derive(Clone, Copy)]
pub struct HeldSet {
    pub set: PastSet,
    pub ghost fits: { SetFits set },
}

// ---- read

// The past set whose three places begin there. A chart's set stands in three places too, in another struct and order: From of three numbers would be these two bodies again.
#[tactic(auto, using(whole::proofs::PlaceLaws::natural_bits))]
pub fn set_at(part: &[i32], at: usize) -> PastSet
    requires { at + 3 ≤ length part.now }
    ensures { result ≡ set_at part.now at }
{
    PastSet {
        day: part[at].cast_unsigned(),
        sum: part[at + 1],
        count: part[at + 2].cast_unsigned(),
    }
}

// The phase stays a code and no enum: the places hold codes for the C interface, and a line is read of any places.
#[tactic(auto, using(whole::proofs::PlaceLaws::natural_bits), unfolding(station_rules::specs::Places::line_in))]
pub fn line_in(part: &[i32]) -> Line
    requires { length part.now ≡ 22 }
    ensures { result ≡ line_in part.now }
{
    Line {
        intercept: part[INTERCEPT_PLACE],
        phase: part[PHASE_PLACE].cast_unsigned(),
        newest_held: part[NEWEST_PLACE].cast_unsigned(),
        newest: [set_at(part, FIRST_NEWEST), set_at(part, SECOND_NEWEST)],
        nonzero_held: part[NONZERO_PLACE].cast_unsigned(),
        nonzero: [
            set_at(part, FIRST_NONZERO),
            set_at(part, SECOND_NONZERO),
            set_at(part, THIRD_NONZERO),
            set_at(part, FOURTH_NONZERO),
        ],
    }
}

// A part is a slice of 22 in each contract, as callers lend it, and no array: std's as_chunks_mut doesn't say what the slice ends as, and as_mut_array is an Option that each caller had to unwrap.

// ---- written after a sheet

// No set is held, and their places are blank.
fn empty(part: &mut [i32])
    requires { length part.old ≡ 22 }
    ensures { part.new ≡ emptied_places (place part.old 0) (place part.old 1) }
{
    part[NEWEST_PLACE..].fill(0);
}

// The line is open, and a set joins the newest, and the non-zero ones where its S is not 0.
fn join(part: &mut [i32], p: HeldSet)
    requires { length part.old ≡ 22 }
    ensures { part.new ≡ joined_places part.old p.set }
{
    let PastSet { day, sum, count } = p.set;
    let set = [day as i32, sum, count as i32];
    part[PHASE_PLACE] = OPEN_LINE as i32;
    held::join(&mut part[NEWEST_PLACE..NONZERO_PLACE], MOST_NEWEST, set);
    if line_past::is_nonzero(p.set) {
        held::join(&mut part[NONZERO_PLACE..LINE_PLACES], MOST_NONZERO, set);
    }
}

// After a sheet that met every average due: its set joins, and is the only one where the line's check was due.
fn open(part: &mut [i32], p: HeldSet)
    requires { length part.old ≡ 22 }
    ensures { part.new ≡ opened_places (phase_word (line_in part.old).phase) part.old p.set }
{
    if ADJUSTED_LINE <= part[PHASE_PLACE].cast_unsigned() {
        empty(part);
    }
    join(part, p);
}

// After a sheet that didn't: its phase, and the change of the intercept. The phase is a code, as the places hold it for C.
fn close(part: &mut [i32], phase: u32, change: i32)
    requires part_len { length part.old ≡ 22 }
    requires within { (phase < 4) × ((Within 1000 1000 (place part.old 0)) × (Within 2000000 2000000 change)) }
    ensures { part.new ≡ emptied_places (place part.old 0 +ℤ change) (pos phase) }
{
    part[INTERCEPT_PLACE] += change;
    part[PHASE_PLACE] = phase as i32;
    empty(part);
}

// After a sheet: its set, and what that did to the line.
pub fn enter_sheet(part: &mut [i32], p: HeldSet, v: Verdict)
    requires part_len { length part.old ≡ 22 }
    requires within { (Within 1000 1000 (place part.old 0)) × (Within 2000000 2000000 (change_of v)) }
    ensures { part.new ≡ sheet_line part.old p.set v }
{
    match v {
        Verdict::Met => open(part, p),
        Verdict::Adjusted(change) => close(part, ADJUSTED_LINE, change),
        Verdict::Shut => close(part, SHUT_LINE, 0),
    }
}

// What an outcome says of the phase: an adjusted line and a shut one have their check due. No method of `Verdict`: its proof would stand among the rules.
pub fn phase_said(v: Verdict) -> u32
    ensures { result ≡ phase_said v }
{
    match v {
        Verdict::Met => OPEN,
        Verdict::Adjusted(_) | Verdict::Shut => CHECK_DUE,
    }
}

// The intercept's change that an outcome carries.
pub fn change_of(v: Verdict) -> i32
    ensures { result ≡ change_of v }
{
    match v {
        Verdict::Adjusted(change) => change,
        Verdict::Met | Verdict::Shut => 0,
    }
}

// ---- written after a repair

// New and open lines become new, any other phase stays; the sets are emptied, and the intercept stays.
pub fn repair(part: &mut [i32])
    requires { length part.old ≡ 22 }
    ensures { part.new ≡ repaired_places part.old }
{
    if part[PHASE_PLACE].cast_unsigned() < ADJUSTED_LINE {
        part[PHASE_PLACE] = NEW_LINE as i32;
    }
    empty(part);
}
