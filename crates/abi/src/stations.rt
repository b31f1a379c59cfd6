// The exported functions of readings and stations. Places, day, line and numbers are parameters of their own, and rows and kinds are numbers: so the C interface takes them.
ghost use Rattle.std.specs.Prelude.{◌≡◌};
ghost use Rattle.reading.specs.Reading.{answer_of};
ghost use Rattle.abi_station.specs.StationAnswers.{scan_of, asked_of, basis_for, reading_given, open_call, sheet_call, repair_call, market_call, station_check_call};

use abi_answers::GrainAnswer;
use abi_station::{GrainCertificate, GrainOutcome, GrainValue};
use station_rules::STATION_PLACES;

#[unsafe(no_mangle)]
pub extern "C" fn grain_reading(percent: f32) -> GrainValue
    ensures { result ≡ reading_given (answer_of percent) }
{
    GrainValue::from(reading::reading(percent))
}

#[unsafe(no_mangle)]
#[tactic(auto, unfolding(abi_station::specs::StationAnswers::open_call))]
pub extern "C" fn grain_open(state: &mut [i32; STATION_PLACES], row: usize) -> GrainAnswer
    ensures { record { answer = result; places = state.new } ≡ open_call row }
{
    GrainAnswer::from(station::open(state, row).map_err(u32::from))
}

#[unsafe(no_mangle)]
#[tactic(auto, unfolding(abi_station::specs::StationAnswers::sheet_call))]
pub extern "C" fn grain_sheet(
    state: &mut [i32; STATION_PLACES],
    day: u32,
    line: usize,
    numbers: &[i32],
) -> GrainOutcome
    ensures { record { answer = result; places = state.new } ≡ sheet_call state.old day line numbers.now }
{
    GrainOutcome::from(station::sheet(state, day, line, numbers))
}

#[unsafe(no_mangle)]
#[tactic(auto, unfolding(abi_station::specs::StationAnswers::repair_call))]
pub extern "C" fn grain_repair(state: &mut [i32; STATION_PLACES], day: u32) -> GrainAnswer
    ensures { record { answer = result; places = state.new } ≡ repair_call state.old day }
{
    GrainAnswer::from(station::repair(state, day).map_err(u32::from))
}

#[unsafe(no_mangle)]
#[tactic(auto, unfolding(abi_station::specs::StationAnswers::market_call))]
pub extern "C" fn grain_market(
    state: &mut [i32; STATION_PLACES],
    day: u32,
    line: usize,
    scan_kind: u32,
    first: f32,
    second: f32,
    third: f32,
    asked: u32,
    basis_kind: u32,
    basis: i32,
) -> GrainCertificate
    ensures { record { answer = result; places = state.new } ≡ market_call state.old day line (scan_of scan_kind first second third) (asked_of asked) (basis_for basis_kind basis) }
{
    let scan = abi_station::scan_of(scan_kind, first, second, third);
    let wanted = abi_station::asked_of(asked);
    let at = abi_station::basis_for(basis_kind, basis);
    GrainCertificate::from(market::market(state, day, line, scan, wanted, at))
}

#[unsafe(no_mangle)]
#[tactic(auto, unfolding(abi_station::specs::StationAnswers::station_check_call))]
pub extern "C" fn grain_station_check(state: &[i32; STATION_PLACES]) -> GrainAnswer
    ensures { result ≡ station_check_call state.now }
{
    GrainAnswer::from(station::check(state).map_err(u32::from))
}
