// What the exported function for ship lots hands back. C has no `Result`: this is a struct of numbers, all values 0 where refused; the sums have 64 bits.

#![tactic(auto)]

ghost use Rattle.std.specs.Prelude.{◌≡◌};
ghost use Rattle.abi_lot.specs.LotAnswers.{lot_given};

use lot_rules::{Refusal, Statement};

// accepted is 1 or 0, number the refusal's; then the basis, the lowest and the highest figure, the mean in tenths, the tonnes, the sum of figure times tonnes.
#[repr(C)]
#[derive(Clone, Copy)]
pub struct GrainLot {
    pub accepted: u32,
    pub number: u32,
    pub basis: i32,
    pub lowest: u32,
    pub highest: u32,
    pub mean: u32,
    pub tonnes: u64,
    pub weighted_sum: u64,
}

impl From<Result<Statement, Refusal>> for GrainLot {
    ghost from_gives = { λ answer given. given ≡ lot_given answer };

    fn from(answer: Result<Statement, Refusal>) -> GrainLot {
        match answer {
            Ok(s) => GrainLot {
                accepted: 1,
                number: 0,
                basis: s.basis,
                lowest: s.lowest,
                highest: s.highest,
                mean: s.mean,
                tonnes: s.tonnes,
                weighted_sum: s.weighted_sum,
            },
            Err(refusal) => GrainLot {
                accepted: 0,
                number: refusal.into(),
                basis: 0,
                lowest: 0,
                highest: 0,
                mean: 0,
                tonnes: 0,
                weighted_sum: 0,
            },
        }
    }
}
