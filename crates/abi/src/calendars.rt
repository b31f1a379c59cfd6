// The exported functions of the calendar. Year, month and day, and a day, a count and the holidays, are parameters of their own: so the C interface takes them.
ghost use Rattle.std.specs.Prelude.{◌≡◌};
ghost use Rattle.calendar_rules.specs.Dates.{date};
ghost use Rattle.calendar_rules.specs.Calls.{day_of, date_of, weekday_of, working_day, results_due};
ghost use Rattle.abi_calendar.specs.CalendarAnswers.{day_given, date_given, weekday_given};

use abi_calendar::{GrainDate, GrainDay, GrainWeekday};
use calendar_rules::Date;

#[unsafe(no_mangle)]
pub extern "C" fn grain_day_from_date(year: u32, month: u32, day: u32) -> GrainDay
    ensures { result ≡ day_given (day_of (date year month day)) }
{
    calendar::day_from_date(Date { year, month, day }).into()
}

#[unsafe(no_mangle)]
pub extern "C" fn grain_date_from_day(day: u32) -> GrainDate
    ensures { result ≡ date_given (date_of day) }
{
    calendar::date_from_day(day).into()
}

#[unsafe(no_mangle)]
pub extern "C" fn grain_weekday_of_day(day: u32) -> GrainWeekday
    ensures { result ≡ weekday_given (weekday_of day) }
{
    calendar::weekday(day).into()
}

#[unsafe(no_mangle)]
pub extern "C" fn grain_working_day(day: u32, count: u32, holidays: &[i32]) -> GrainDay
    ensures { result ≡ day_given (working_day day count holidays.now) }
{
    calendar::working_day(day, count, holidays).into()
}

#[unsafe(no_mangle)]
pub extern "C" fn grain_results_due(day: u32, holidays: &[i32]) -> GrainDay
    ensures { result ≡ day_given (results_due day holidays.now) }
{
    calendar::results_due(day, holidays).into()
}
