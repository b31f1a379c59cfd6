// What an exported call that has no values hands back: C has no `Result`, so accepted and number stand in a small struct.

#![tactic(auto)]

ghost use Rattle.std.specs.Prelude.{◌≡◌};
ghost use Rattle.abi_answers.specs.Given.{given};

// accepted is 1 or 0; number is the refusal's, 0 where accepted.
#[repr(C)]
#[derive(Clone, Copy)]
pub struct GrainAnswer {
    pub accepted: u32,
    pub number: u32,
}

// Of a call that is refused by a number.
impl From<Result<(), u32>> for GrainAnswer {
    ghost from_gives = { λ answer r. r ≡ given answer };

    fn from(answer: Result<(), u32>) -> GrainAnswer {
        match answer {
            Ok(()) => GrainAnswer {
                accepted: 1,
                number: 0,
            },
            Err(number) => GrainAnswer {
                accepted: 0,
                number,
            },
        }
    }
}
