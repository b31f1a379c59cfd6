// Numbers 0 and 2, which look at the station alone: whether what stands in the places is a sound station, and whether a call's day serves (docs/SPECIFICATION.md,
// "Refused calls").

#![tactic(auto)]

ghost use Rattle.std.specs.Prelude.{◌≡◌, ◌&&◌, ◌≤◌, leb, map, take};
ghost use Rattle.station_rules.specs.Judging.{day_check};
ghost use Rattle.station_rules.specs.Soundness.{sound_set, sound_sets, sound_nonzero, sound_held, sound_line, sound};
ghost use Rattle.station_rules.specs.Places.{set_at, line_in, station_in};
ghost use Rattle.station_soundness.specs.Past.{sound_one, sound_kind};

use station_rules::{
    ADJUSTED_LINE, FIRST_LINE, FIRST_NEWEST, FIRST_NONZERO, INTERCEPT_BOUND, INTERCEPT_PLACE,
    LAST_DAY, LINE_PLACES, MOST_NEWEST, MOST_NONZERO, NEW_LINE, NEWEST_PLACE, NONZERO_PLACE,
    OPEN_LINE, PHASE_PLACE, PastSet, SHUT_LINE, STATION_PLACES, SUM_BOUND,
};
use whole::held::SET_PLACES;

// N is even from 2 to twice the samples n, and |S| is at most 11000 times N.
fn sound_set(n: u32, p: PastSet) -> bool
    ensures { result ≡ sound_set n p }
{
    let count = u64::from(p.count);
    count % 2 == 0
        && (2..=2 * u64::from(n)).contains(&count)
        && u64::from(p.sum.unsigned_abs()) <= u64::from(SUM_BOUND) * count
}

// An open line has one or two newest sets and at most four non-zero ones, any other none of either; a phase that there isn't has no right number of them. The phase is a code, as the places hold it for C.
fn sound_held(phase: u32, newest: u32, nonzero: u32) -> bool
    ensures { result ≡ sound_held phase newest nonzero }
{
    match phase {
        OPEN_LINE => (1..=MOST_NEWEST).contains(&newest) && nonzero <= MOST_NONZERO,
        NEW_LINE | ADJUSTED_LINE | SHUT_LINE => newest == 0 && nonzero == 0,
        _ => false,
    }
}

// A set whose day does not pass that of the set before it, and that is sound; where its kind has no zeros, its S is not 0.
fn next_set(zeros: bool, n: u32, last: u32, p: PastSet) -> bool
    ensures { result ≡ (leb p.day last && sound_one zeros n p) }
{
    p.day <= last && sound_set(n, p) && (zeros || line_past::is_nonzero(p))
}

// The held sets of one kind, from newest to oldest: a loop, since each day is held against that of the set before it, and the first against the station's.
fn sound_kind(zeros: bool, n: u32, day: u32, sets: &[[i32; SET_PLACES]]) -> bool
    ensures { result ≡ sound_kind zeros n day (map (λ s. set_at s 0) sets.now) }
{
    let mut last = day;
    for set in sets {
        let p = line::set_at(set, 0);
        if !next_set(zeros, n, last, p) {
            return false;
        }
        last = p.day;
    }
    true
}

// The held sets of a line, those of each kind by themselves.
fn sound_kinds(n: u32, day: u32, newest: usize, nonzero: usize, part: &[i32; LINE_PLACES]) -> bool
    requires { (newest ≤ 2) × (nonzero ≤ 4) }
    ensures { result ≡ (sound_sets n day (take newest (line_in part.now).newest) && sound_nonzero n day (take nonzero (line_in part.now).nonzero)) }
{
    let (newest_sets, _) = part[FIRST_NEWEST..NONZERO_PLACE].as_chunks::<SET_PLACES>();
    let (nonzero_sets, _) = part[FIRST_NONZERO..].as_chunks::<SET_PLACES>();
    sound_kind(true, n, day, &newest_sets[..newest])
        && sound_kind(false, n, day, &nonzero_sets[..nonzero])
}

// A line whose intercept, phase and counts are sound, and the sets held by these counts.
#[tactic(auto, using(whole::proofs::PlaceLaws::natural_read), unfolding(station_rules::specs::Soundness::sound_line, station_rules::specs::Places::line_in))]
fn sound_line(n: u32, day: u32, part: &[i32; LINE_PLACES]) -> bool
    ensures { result ≡ sound_line n day (line_in part.now) }
{
    let newest = part[NEWEST_PLACE].cast_unsigned();
    let nonzero = part[NONZERO_PLACE].cast_unsigned();
    part[INTERCEPT_PLACE].unsigned_abs() <= INTERCEPT_BOUND
        && sound_held(part[PHASE_PLACE].cast_unsigned(), newest, nonzero)
        && sound_kinds(n, day, newest as usize, nonzero as usize, part)
}

// Number 0: the places are 68, the row exists, the day is 0..99999, and the row's lines are sound.
pub fn is_sound(state: &[i32]) -> bool
    ensures { result ≡ sound (station_in state.now) }
{
    if state.len() != STATION_PLACES {
        return false;
    }
    let row = station_places::row_of(state);
    if !row_table::row_exists(row as usize) {
        return false;
    }
    let day = station_places::day_of(state);
    if LAST_DAY < day {
        return false;
    }
    let n = row_table::sample_count(row);
    let (lines, _) = state[FIRST_LINE..].as_chunks::<LINE_PLACES>();
    lines[..row_table::line_count(row)]
        .iter()
        .all(|part| sound_line(n, day, part))
}

// Number 2: the day is below that of the last accepted call or above 99999.
pub fn is_bad_day(last: u32, day: u32) -> bool
    ensures { result ≡ (day_check last day).applies }
{
    day < last || LAST_DAY < day
}
