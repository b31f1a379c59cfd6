// The values of a ship lot: the records that a call takes, what it states of them, and the rules' numbers.

#![tactic(auto)]

ghost use Rattle.std.specs.Prelude.{◌≡◌};
ghost use Rattle.lot_rules.specs.Lots.{number_of};

// ---- the rules' numbers

// The most records that a lot may have.
pub const MOST_RECORDS: usize = 500;

// A record's largest figure (100 percent), its largest basis (50 percent), its most tonnes.
pub const LARGEST_FIGURE: i32 = 1000;

pub const LARGEST_BASIS: i32 = 5000;

pub const MOST_TONNES: i32 = 1000000;

// ---- records and statement

// A sublot's record: its figure in tenths, the moisture basis that the figure stands at in hundredths, its tonnes. Laid out as in C, so that a list of them is lent to the core as it lies.
#[repr(C)]
#[derive(Clone, Copy)]
pub struct Sublot {
    pub figure: i32,
    pub basis: i32,
    pub tonnes: i32,
}

// What is stated of a lot: the basis of all its records; the lowest and the highest figure, in tenths; its mean as two whole numbers, the sum of figure times tonnes and the tonnes, and in tenths.
#[derive(Clone, Copy)]
pub struct Statement {
    pub basis: i32,
    pub lowest: u32,
    pub highest: u32,
    pub tonnes: u64,
    pub weighted_sum: u64,
    pub mean: u32,
}

// ---- refusals

#[derive(Clone, Copy)]
pub enum Refusal {
    LotSize = 29,
    BadSublot = 30,
    UnlikeBasis = 31,
}

// The refusal's number.
impl From<Refusal> for u32 {
    ghost from_gives = { λ r n. n ≡ number_of r };

    fn from(r: Refusal) -> u32 {
        r as u32
    }
}
