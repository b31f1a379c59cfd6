// The calendar's calls: dates and days, weekdays, working days, and when monitoring results are due. Each ends in bounded time: dates by arithmetic, working
// days in one pass over the holidays, which stops at the first that is bad; 100000 of them at most are good.
// A day, a count and the holidays are parameters of their own, as C hands them over: a struct of them would be put together only to be taken apart.

#![tactic(auto)]

ghost use Rattle.std.specs.Prelude.{◌≡◌};
ghost use Rattle.calendar_rules.specs.Weekdays.{weekday_on};
ghost use Rattle.calendar_rules.specs.Calls.{day_of, date_of, weekday_of, working_day, results_due};
ghost use Rattle.calendar.specs.Ends.{within_last};

use calendar_dates::ValidDate;
use calendar_rules::{DUE_DAYS, Date, Day, LAST_DAY, Refusal, SINCE_MONDAY, WEEK, Weekday};

// ---- dates and days

// The day of a date.
#[tactic(auto, using(calendar_rules::proofs::DateTests::is_no, calendar_rules::proofs::Exact::no_day, calendar_rules::proofs::Exact::a_day, calendar_rules::proofs::Exact::in_by_number, calendar_rules::proofs::Exact::number_in))]
pub fn day_from_date(date: Date) -> Result<u32, Refusal>
    ensures { result ≡ day_of date }
{
    let date = ValidDate::try_from(date)?;
    Ok(Day::try_from(date.number())?.number)
}

// The date of a day.
#[tactic(auto, using(calendar_rules::proofs::Exact::a_date, calendar_rules::proofs::Exact::no_date))]
pub fn date_from_day(day: u32) -> Result<Date, Refusal>
    ensures { result ≡ date_of day }
{
    let day = Day::try_from(day)?;
    Ok(calendar_dates::date_on(day))
}

// ---- weekdays

// Day 0 is a Saturday. A match, not a TryFrom: the remainder is always one of the seven.
fn weekday_on(day: Day) -> Weekday
    ensures { result ≡ weekday_on day.number }
{
    match (day.number + SINCE_MONDAY) % WEEK {
        0 => Weekday::Monday,
        1 => Weekday::Tuesday,
        2 => Weekday::Wednesday,
        3 => Weekday::Thursday,
        4 => Weekday::Friday,
        5 => Weekday::Saturday,
        _ => Weekday::Sunday,
    }
}

// The weekday of a day.
#[tactic(auto, using(calendar_rules::proofs::WeekdayLaws::a_weekday, calendar_rules::proofs::WeekdayLaws::no_weekday))]
pub fn weekday(day: u32) -> Result<Weekday, Refusal>
    ensures { result ≡ weekday_of day }
{
    let day = Day::try_from(day)?;
    Ok(weekday_on(day))
}

// ---- working days

// The day found, unless it is past the last.
#[tactic(auto, unfolding(crate::specs::Ends::within_last))]
fn within_last(found: u64) -> Result<u32, Refusal>
    ensures { result ≡ within_last found }
{
    if u64::from(LAST_DAY) < found {
        return Err(Refusal::NoSuchDay);
    }
    Ok(found as u32)
}

// The day that is so many working days after a day; the holidays are the days listed. How far ahead it lies is found first without holidays, then with one more of them at a time.
#[tactic(auto, using(calendar_rules::proofs::Working::no_start))]
pub fn working_day(day: u32, count: u32, holidays: &[i32]) -> Result<u32, Refusal>
    ensures { result ≡ working_day day count holidays.now }
{
    let start = Day::try_from(day)?;
    let origin = u64::from(start.number);
    let mut ahead = calendar_working::without_holidays(start, count) - origin;
    let mut least = 0;
    for holiday in holidays {
        // a negative one is past the last day then; one test of both bounds, since by Day's try_from each took two instructions more
        let holiday = holiday.cast_unsigned();
        if !(least..=LAST_DAY).contains(&holiday) {
            return Err(Refusal::BadHolidays);
        }
        ahead = calendar_working::passed(start, Day { number: holiday }, ahead);
        least = holiday + 1;
    }
    within_last(origin + ahead)
}

// The day by which monitoring results are due at the service point, from the day of retrieval.
#[tactic(auto, unfolding(calendar_rules::specs::Calls::results_due))]
pub fn results_due(day: u32, holidays: &[i32]) -> Result<u32, Refusal>
    ensures { result ≡ results_due day holidays.now }
{
    working_day(day, DUE_DAYS, holidays)
}
