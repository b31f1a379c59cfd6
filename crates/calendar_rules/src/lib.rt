// The values of the calendar: what a call takes and what it answers, and the rules' numbers.

#![tactic(auto)]

ghost use Rattle.std.specs.Prelude.{◌≡◌, ◌≤◌, ◌<◌, MatchResult};
ghost use Rattle.calendar_rules.specs.Weekdays.{weekday_number};
ghost use Rattle.calendar_rules.specs.Calls.{number_of};
ghost use Rattle.calendar_rules.specs.declared.Refusal.TheVariants.{NoSuchDay};

// ---- the rules' numbers

// The year of day 0.
pub const FIRST_YEAR: u32 = 2000;

// The year of the last day.
pub const LAST_YEAR: u32 = 2273;

// The months of a year.
pub const MONTHS: u32 = 12;

// The days of a week, and those of Monday to Friday.
pub const WEEK: u32 = 7;

pub const WORKING_WEEK: u32 = 5;

// Day 0 is a Saturday, so many days after a Monday.
pub const SINCE_MONDAY: u32 = 5;

// The last day, 15 October 2273.
pub const LAST_DAY: u32 = 99999;

// The working days after retrieval within which monitoring results are due.
pub const DUE_DAYS: u32 = 2;

// ---- days, dates and weekdays

// A day of the calendar.
#[derive(Clone, Copy)]
pub struct Day {
    pub number: u32,
    pub ghost within: { number ≤ 99999 },
}

// The day of this number, if there is one.
impl TryFrom<u32> for Day {
    type Error = Refusal;

    ghost try_from_gives = { λ n r. MatchResult r (λ d. d.number ≡ n) (λ e. (e ≡ NoSuchDay) × (99999 < n)) };

    fn try_from(number: u32) -> Result<Day, Refusal> {
        if LAST_DAY < number {
            return Err(Refusal::NoSuchDay);
        }
        Ok(Day { number })
    }
}

// Year, month 1 to 12, day 1 to the month's length. What computes with it stands in calendar_dates and calendar: as methods its proofs would stand here, among the rules.
#[derive(Clone, Copy)]
pub struct Date {
    pub year: u32,
    pub month: u32,
    pub day: u32,
}

// Numbered as in ISO 8601.
#[derive(Clone, Copy)]
pub enum Weekday {
    Monday = 1,
    Tuesday,
    Wednesday,
    Thursday,
    Friday,
    Saturday,
    Sunday,
}

// The weekday's number.
impl From<Weekday> for u32 {
    ghost from_gives = { λ w n. n ≡ weekday_number w };

    fn from(w: Weekday) -> u32 {
        w as u32
    }
}

// ---- refusals

#[derive(Clone, Copy)]
pub enum Refusal {
    NoSuchDay = 27,
    BadHolidays = 28,
}

// The refusal's number.
impl From<Refusal> for u32 {
    ghost from_gives = { λ r n. n ≡ number_of r };

    fn from(r: Refusal) -> u32 {
        r as u32
    }
}
