// Numbers 0, 2 and 3 of a call in their order (docs/SPECIFICATION.md, "Refused calls"), and what a sheet or a market test stands on once none applies.

#![tactic(auto)]

ghost use Rattle.std.specs.Prelude.{◌≡◌};
ghost use Rattle.station_rules.specs.Refusals.{first_number};
ghost use Rattle.station_rules.specs.Places.{station_in};
ghost use Rattle.station_entry.specs.Entries.{day_checks, line_checks, refused_or, footing, entered};

use line::SoundLine;
use station_rules::Refusal;

// The row, a number as the places hold it, and the line that the call names.
#[derive(Clone, Copy)]
pub struct Entry {
    pub row: u32,
    pub sound: SoundLine,
}

// Numbers 0 and 2. Both always inlined: called, they make a market test a twentieth longer.
#[inline(always)]
pub fn judge_day(state: &[i32], day: u32) -> Result<(), Refusal>
    ensures { result ≡ refused_or tt (first_number (day_checks (station_in state.now) day)) }
{
    if !station_soundness::is_sound(state) {
        return Err(Refusal::UnsoundStation);
    }
    if station_soundness::is_bad_day(station_places::day_of(state), day) {
        return Err(Refusal::BadDay);
    }
    Ok(())
}

// Numbers 0, 2 and 3.
#[inline(always)]
pub fn judge_line(state: &[i32], day: u32, line: usize) -> Result<Entry, Refusal>
    ensures { entered result ≡ refused_or (footing (station_in state.now) line) (first_number (line_checks (station_in state.now) day line)) }
{
    judge_day(state, day)?;
    let row = station_places::row_of(state);
    if row_table::line_count(row) <= line {
        return Err(Refusal::UnknownLine);
    }
    let line = station_places::line_of(state, line);
    Ok(Entry {
        row,
        sound: SoundLine { line },
    })
}
