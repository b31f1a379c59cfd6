// What the exported calendar functions hand back. C has no `Result`: these are small structs of 32-bit numbers, all values 0 where refused.
// One `match` each: a helper for accepted and number alone would split the two cases of every struct, and is no plainer.

#![tactic(auto)]

ghost use Rattle.std.specs.Prelude.{◌≡◌};
ghost use Rattle.abi_calendar.specs.CalendarAnswers.{day_given, date_given, weekday_given};

use calendar_rules::{Date, Refusal, Weekday};

// accepted is 1 or 0, number the refusal's; then the day.
#[repr(C)]
#[derive(Clone, Copy)]
pub struct GrainDay {
    pub accepted: u32,
    pub number: u32,
    pub day: u32,
}

// accepted is 1 or 0, number the refusal's; then the date.
#[repr(C)]
#[derive(Clone, Copy)]
pub struct GrainDate {
    pub accepted: u32,
    pub number: u32,
    pub year: u32,
    pub month: u32,
    pub day: u32,
}

// accepted is 1 or 0, number the refusal's; then the weekday, Monday 1 to Sunday 7.
#[repr(C)]
#[derive(Clone, Copy)]
pub struct GrainWeekday {
    pub accepted: u32,
    pub number: u32,
    pub weekday: u32,
}

impl From<Result<u32, Refusal>> for GrainDay {
    ghost from_gives = { λ answer given. given ≡ day_given answer };

    fn from(answer: Result<u32, Refusal>) -> GrainDay {
        match answer {
            Ok(day) => GrainDay {
                accepted: 1,
                number: 0,
                day,
            },
            Err(refusal) => GrainDay {
                accepted: 0,
                number: refusal.into(),
                day: 0,
            },
        }
    }
}

impl From<Result<Date, Refusal>> for GrainDate {
    ghost from_gives = { λ answer given. given ≡ date_given answer };

    fn from(answer: Result<Date, Refusal>) -> GrainDate {
        match answer {
            Ok(date) => GrainDate {
                accepted: 1,
                number: 0,
                year: date.year,
                month: date.month,
                day: date.day,
            },
            Err(refusal) => GrainDate {
                accepted: 0,
                number: refusal.into(),
                year: 0,
                month: 0,
                day: 0,
            },
        }
    }
}

impl From<Result<Weekday, Refusal>> for GrainWeekday {
    ghost from_gives = { λ answer given. given ≡ weekday_given answer };

    fn from(answer: Result<Weekday, Refusal>) -> GrainWeekday {
        match answer {
            Ok(weekday) => GrainWeekday {
                accepted: 1,
                number: 0,
                weekday: weekday.into(),
            },
            Err(refusal) => refused_weekday(refusal.into()),
        }
    }
}

// Out of line, so that a day's weekday does not pass by the zeros of a refusal.
#[cold]
#[inline(never)]
fn refused_weekday(number: u32) -> GrainWeekday
    ensures { (result.accepted ≡ 0) × ((result.number ≡ number) × (result.weekday ≡ 0)) }
{
    GrainWeekday {
        accepted: 0,
        number,
        weekday: 0,
    }
}
