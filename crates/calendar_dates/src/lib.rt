// Dates and days turned into each other by arithmetic, with no loop.

#![tactic(auto)]

ghost use Rattle.std.specs.Prelude.{◌≡◌, ◌≤◌, ◌<◌, false, MatchResult};
ghost use Rattle.calendar_rules.specs.Dates.{date, leap_year, month_length, date_on};
ghost use Rattle.calendar_rules.specs.Counting.{year_start, lacking, month_start, day_number, is_date};
ghost use Rattle.calendar_rules.specs.Laws.{Valid};
ghost use Rattle.calendar_rules.specs.declared.Refusal.TheVariants.{NoSuchDay};
ghost use Rattle.calendar_dates.specs.Parts.{InYear, InMonth};

use calendar_rules::{Date, Day, FIRST_YEAR, LAST_YEAR, MONTHS, Refusal};

// ---- a year

// A year, and whether it is a leap year: worked out once, and kept for its months.
#[derive(Clone, Copy)]
pub struct Year {
    pub number: u32,
    pub leap: bool,
    pub ghost gregorian: { leap ≡ leap_year number },
}

// The year of this number.
impl From<u32> for Year {
    ghost from_gives = { λ n y. y.number ≡ n };

    #[tactic(auto, unfolding(calendar_rules::specs::Dates::leap_year))]
    fn from(number: u32) -> Year {
        let leap = number % 4 == 0 && (number % 100 != 0 || number % 400 == 0);
        Year { number, leap }
    }
}

impl Year {
    // The days of a month; 0 of a month that there isn't.
    #[tactic(auto, unfolding(calendar_rules::specs::Dates::month_length))]
    fn month_length(self, month: u32) -> u32
        ensures { result ≡ month_length self.number month }
    {
        match month {
            1 | 3 | 5 | 7 | 8 | 10 | 12 => 31,
            4 | 6 | 9 | 11 => 30,
            2 if self.leap => 29,
            2 => 28,
            _ => 0,
        }
    }

    // The days from 1 January 2000 to 1 January of the year.
    #[tactic(auto, unfolding(calendar_rules::specs::Counting::year_start))]
    fn start(self) -> u32
        requires { (2000 ≤ self.number) × (self.number ≤ 2300) }
        ensures { result ≡ year_start self.number }
    {
        let y = self.number - FIRST_YEAR;
        365 * y + (y + 3) / 4 + (y + 399) / 400 - (y + 99) / 100
    }

    // The days that February has fewer than 30, which a month's start is too high by from March on.
    fn lacks(self, month: u32) -> u32
        ensures { result ≡ lacking self.leap month }
    {
        if month <= 2 {
            return 0;
        }
        if self.leap { 1 } else { 2 }
    }

    // The days from 1 January to the first of a month.
    #[tactic(auto, unfolding(calendar_rules::specs::Counting::month_start))]
    fn month_start(self, month: u32) -> u32
        requires { (1 ≤ month) × (month ≤ 12) }
        ensures { result ≡ month_start self.leap month }
    {
        (367 * month - 362) / 12 - self.lacks(month)
    }

    // The month in which the day stands that is so many days after 1 January.
    #[tactic(auto, using(crate::proofs::MonthLaws::march, crate::proofs::MonthLaws::lacks_little, crate::proofs::MonthLaws::year_small))]
    fn month_of(self, rest: u32) -> u32
        requires { rest < month_start self.leap 13 }
        ensures { InMonth self.leap rest result }
    {
        if rest < self.month_start(3) {
            return rest / 31 + 1;
        }
        (12 * (rest + self.lacks(3)) + 373) / 367
    }
}

// ---- days and dates

// A date of the years 2000 to 2273, with its year taken up once.
#[derive(Clone, Copy)]
pub struct ValidDate {
    pub year: Year,
    pub month: u32,
    pub day: u32,
    pub ghost valid: { Valid (date year.number month day) × (year.number ≤ 2273) },
}

// The date, unless these years have no such one.
impl TryFrom<Date> for ValidDate {
    type Error = Refusal;

    ghost try_from_gives = { λ d r. MatchResult r (λ x. d ≡ date x.year.number x.month x.day) (λ e. (e ≡ NoSuchDay) × (is_date d ≡ false)) };

    #[tactic(auto, unfolding(calendar_rules::specs::Counting::is_date), using(calendar_rules::proofs::DateTests::is_yes))]
    fn try_from(d: Date) -> Result<ValidDate, Refusal> {
        let year = Year::from(d.year);
        if !((FIRST_YEAR..=LAST_YEAR).contains(&d.year)
            && (1..=MONTHS).contains(&d.month)
            && (1..=year.month_length(d.month)).contains(&d.day))
        {
            return Err(Refusal::NoSuchDay);
        }
        Ok(ValidDate {
            year,
            month: d.month,
            day: d.day,
        })
    }
}

impl ValidDate {
    // The day of the date, which may be past the last.
    #[tactic(auto, unfolding(calendar_rules::specs::Counting::day_number), using(crate::proofs::YearLaws::start_high, crate::proofs::MonthLaws::month_small))]
    pub fn number(self) -> u32
        ensures { result ≡ day_number (date self.year.number self.month self.day) }
    {
        self.year.start() + self.year.month_start(self.month) + (self.day - 1)
    }
}

// The year of a day: the quotient by the mean length of a year is it, or the year after.
#[tactic(auto, using(crate::proofs::YearLaws::year_before, crate::proofs::YearLaws::year_itself))]
fn year_of(day: Day) -> Year
    ensures { InYear day.number result.number }
{
    let year = Year::from(FIRST_YEAR + (400 * day.number + 396) / 146097);
    if day.number < year.start() {
        Year::from(year.number - 1)
    } else {
        year
    }
}

// The date of a day.
#[tactic(auto, using(crate::proofs::DateLaws::rest_within, crate::proofs::DateLaws::taken_apart))]
pub fn date_on(day: Day) -> Date
    ensures { result ≡ date_on day.number }
{
    let year = year_of(day);
    let rest = day.number - year.start();
    let month = year.month_of(rest);
    Date {
        year: year.number,
        month,
        day: rest - year.month_start(month) + 1,
    }
}
