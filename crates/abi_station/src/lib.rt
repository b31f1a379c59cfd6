// What the exported station functions are asked and hand back: kinds by their numbers, and, since C has no `Result`, small structs of 32-bit numbers, each with values of its own, so that each has its From.

#![tactic(auto)]

ghost use Rattle.std.specs.Prelude.{◌≡◌};
ghost use Rattle.abi_station.specs.StationAnswers.{scan_of, asked_of, basis_for, reading_given, sheet_given, market_given};

use station_rules::{
    Asked, Basis, Certificate, CornSet, Outcome, Refusal, Scan, WheatClass, WheatSet,
};

// accepted is 1 or 0, number the refusal's; then the hundredths.
#[repr(C)]
#[derive(Clone, Copy)]
pub struct GrainValue {
    pub accepted: u32,
    pub number: u32,
    pub hundredths: u32,
}

// accepted is 1 or 0, number the refusal's; then S, N, the phase after the sheet and the intercept's change.
#[repr(C)]
#[derive(Clone, Copy)]
pub struct GrainOutcome {
    pub accepted: u32,
    pub number: u32,
    pub sum: i32,
    pub count: u32,
    pub phase: u32,
    pub change: i32,
}

// accepted is 1 or 0, number the refusal's; then the newest set's day, the intercept, B, and the figures of h and at B in tenths.
#[repr(C)]
#[derive(Clone, Copy)]
pub struct GrainCertificate {
    pub accepted: u32,
    pub number: u32,
    pub day: u32,
    pub intercept: i32,
    pub basis: i32,
    pub figure: u32,
    pub converted: u32,
}

// ---- asked

// The kinds of scan as C sends them; any other is a fault.
const WHEAT_SCAN: u32 = 0;

const CORN_SCAN: u32 = 1;

const WHEAT_GLUTEN_SCAN: u32 = 3;

// What may be asked for, as C sends it; any other number is gluten of another class.
const LINE_FIGURE: u32 = 0;

const GLUTEN_HARD_RED_WINTER: u32 = 1;

const GLUTEN_HARD_RED_SPRING: u32 = 2;

// The kinds of basis, as C sends them.
const STANDARD_BASIS: u32 = 0;

const DRY_BASIS: u32 = 1;

const SPECIFIED_BASIS: u32 = 2;

const AS_IS_BASIS: u32 = 3;

// What a kind of basis that there isn't asks for: number 10 refuses it, or 24 where gluten is asked.
const NO_BASIS: i32 = -1;

#[tactic(auto, unfolding(crate::specs::StationAnswers::scan_of))]
pub fn scan_of(kind: u32, first: f32, second: f32, third: f32) -> Scan
    ensures { result ≡ scan_of kind first second third }
{
    match kind {
        WHEAT_SCAN => Scan::Wheat(first),
        CORN_SCAN => Scan::Corn(CornSet {
            protein: first,
            oil: second,
            starch: third,
        }),
        WHEAT_GLUTEN_SCAN => Scan::WheatGluten(WheatSet {
            protein: first,
            gluten: second,
        }),
        _ => Scan::Fault(0),
    }
}

#[tactic(auto, unfolding(crate::specs::StationAnswers::asked_of))]
pub fn asked_of(kind: u32) -> Asked
    ensures { result ≡ asked_of kind }
{
    match kind {
        LINE_FIGURE => Asked::LineFigure,
        GLUTEN_HARD_RED_WINTER => Asked::Gluten(WheatClass::HardRedWinter),
        GLUTEN_HARD_RED_SPRING => Asked::Gluten(WheatClass::HardRedSpring),
        _ => Asked::Gluten(WheatClass::Other),
    }
}

#[tactic(auto, unfolding(crate::specs::StationAnswers::basis_for))]
pub fn basis_for(kind: u32, b: i32) -> Basis
    ensures { result ≡ basis_for kind b }
{
    match kind {
        STANDARD_BASIS => Basis::Standard,
        DRY_BASIS => Basis::Dry,
        SPECIFIED_BASIS => Basis::Specified(b),
        AS_IS_BASIS => Basis::AsIs(b),
        _ => Basis::Specified(NO_BASIS),
    }
}

// ---- handed back

// Of a reading: number 9 refuses a float that has none.
impl From<Option<u32>> for GrainValue {
    ghost from_gives = { λ reading r. r ≡ reading_given reading };

    #[tactic(auto, unfolding(crate::specs::StationAnswers::reading_given))]
    fn from(reading: Option<u32>) -> GrainValue {
        match reading {
            Some(hundredths) => GrainValue {
                accepted: 1,
                number: 0,
                hundredths,
            },
            None => GrainValue {
                accepted: 0,
                number: u32::from(Refusal::BadFloat),
                hundredths: 0,
            },
        }
    }
}

// Of a sheet.
impl From<Result<Outcome, Refusal>> for GrainOutcome {
    ghost from_gives = { λ answer r. r ≡ sheet_given answer };

    fn from(answer: Result<Outcome, Refusal>) -> GrainOutcome {
        match answer {
            Ok(o) => GrainOutcome {
                accepted: 1,
                number: 0,
                sum: o.sum,
                count: o.count,
                phase: o.phase,
                change: o.change,
            },
            Err(r) => GrainOutcome {
                accepted: 0,
                number: u32::from(r),
                sum: 0,
                count: 0,
                phase: 0,
                change: 0,
            },
        }
    }
}

// Of a market test.
impl From<Result<Certificate, Refusal>> for GrainCertificate {
    ghost from_gives = { λ answer r. r ≡ market_given answer };

    fn from(answer: Result<Certificate, Refusal>) -> GrainCertificate {
        match answer {
            Ok(c) => GrainCertificate {
                accepted: 1,
                number: 0,
                day: c.day,
                intercept: c.intercept,
                basis: c.basis,
                figure: c.figure,
                converted: c.converted,
            },
            Err(r) => GrainCertificate {
                accepted: 0,
                number: u32::from(r),
                day: 0,
                intercept: 0,
                basis: 0,
                figure: 0,
                converted: 0,
            },
        }
    }
}
