// The refusals of a station's calls, and their numbers.

#![tactic(auto)]

ghost use Rattle.std.specs.Prelude.{◌≡◌};
ghost use Rattle.station_refusals.specs.Refusals.{number_of};

// The refusals of a station's calls, numbers 0 to 14 and 23 to 26.
#[derive(Clone, Copy, PartialEq, Eq)]
pub enum Refusal {
    UnsoundStation,
    UnknownRow,
    BadDay,
    UnknownLine,
    SheetSize,
    SheetNumber,
    ThirdReading,
    AgainPair,
    WrongScan,
    BadFloat,
    BadBasis,
    BadValue,
    NewLine,
    OldSet,
    TooHigh,
    GlutenClass,
    GlutenBasis,
    AdjustedLine,
    ShutLine,
}

// A refusal's number: by a match, so that a wrong program can answer another refusal's (docs/DECISIONS.md).
impl From<Refusal> for u32 {
    ghost from_gives = { λ r n. n ≡ number_of r };

    fn from(r: Refusal) -> u32 {
        match r {
            Refusal::UnsoundStation => 0,
            Refusal::UnknownRow => 1,
            Refusal::BadDay => 2,
            Refusal::UnknownLine => 3,
            Refusal::SheetSize => 4,
            Refusal::SheetNumber => 5,
            Refusal::ThirdReading => 6,
            Refusal::AgainPair => 7,
            Refusal::WrongScan => 8,
            Refusal::BadFloat => 9,
            Refusal::BadBasis => 10,
            Refusal::BadValue => 11,
            Refusal::NewLine => 12,
            Refusal::OldSet => 13,
            Refusal::TooHigh => 14,
            Refusal::GlutenClass => 23,
            Refusal::GlutenBasis => 24,
            Refusal::AdjustedLine => 25,
            Refusal::ShutLine => 26,
        }
    }
}
