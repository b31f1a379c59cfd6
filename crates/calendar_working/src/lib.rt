// Working days by arithmetic: Monday to Friday without a loop over days, and one holiday more.

#![tactic(auto)]

ghost use Rattle.std.specs.Prelude.{◌≡◌, [], ◌+◌, ◌-◌, ◌≤◌, ◌<◌};
ghost use Rattle.calendar_rules.specs.Working.{monday_to_friday};
ghost use Rattle.calendar_rules.specs.Laws.{up_to, WorkingDaysAfter};
ghost use Rattle.calendar_working.specs.Passes.{next_of, passed_of, HasUpTo};

use calendar_rules::{Day, SINCE_MONDAY, WEEK, WORKING_WEEK};

// The week in 64 bits, in which a count of working days does not overflow.
const DAYS: u64 = WEEK as u64;

const WORKING: u64 = WORKING_WEEK as u64;

const OFFSET: u64 = SINCE_MONDAY as u64;

const FRIDAY: u64 = WORKING - 1;

#[tactic(auto, using(calendar_rules::proofs::WeekdayLaws::five_of_seven))]
fn monday_to_friday(day: u64) -> bool
    requires { day ≤ 8000000000 }
    ensures { result ≡ monday_to_friday day }
{
    (day + OFFSET) % DAYS < WORKING
}

// How many of the days from day 1 on that come before this one are of Monday to Friday: each week from day 0 on begins with two that are not.
#[tactic(auto, using(crate::proofs::WeekLaws::five_a_week))]
fn count_before(day: u64) -> u64
    requires { day ≤ 100000 }
    ensures { (result ≡ up_to monday_to_friday (day - 1)) × (result ≤ 100000) }
{
    WORKING * (day / DAYS) + (day % DAYS).saturating_sub(2)
}

// The day of Monday to Friday up to which there are so many.
fn day_with(count: u64) -> u64
    requires { (1 ≤ count) × (count ≤ 4300000000) }
    ensures { HasUpTo count result × (result ≤ 7000000000) }
{
    let before = count - 1;
    DAYS * (before / WORKING) + before % WORKING + 2
}

// The day that is so many working days after another where there are no holidays: counting begins on the day after it. The day itself for 0.
pub fn without_holidays(day: Day, count: u32) -> u64
    ensures { WorkingDaysAfter [] day.number count result × (result ≤ 7000000000) }
{
    if count == 0 {
        return u64::from(day.number);
    }
    let first = u64::from(day.number) + 1;
    day_with(count_before(first) + u64::from(count))
}

// The next day of Monday to Friday after one of them: after a Friday comes a Monday.
#[tactic(auto, unfolding(crate::specs::Passes::next_of))]
fn next(day: u64) -> u64
    requires { day ≤ 8000000000 }
    ensures { result ≡ next_of day }
{
    if (day + OFFSET) % DAYS == FRIDAY {
        day + 3
    } else {
        day + 1
    }
}

// How many days ahead of the starting day the day found lies, where one holiday more is listed, later than those before it: if it was counted, the next one is found instead.
#[tactic(auto, unfolding(crate::specs::Passes::passed_of, crate::specs::Passes::next_of), using(std::proofs::lemmas::Bool::Decides::nat_tests))]
pub fn passed(start: Day, holiday: Day, ahead: u64) -> u64
    requires { ahead ≤ 7900000000 }
    ensures { start.number + result ≡ passed_of start.number holiday.number (start.number + ahead) }
{
    let day = u64::from(start.number);
    let listed = u64::from(holiday.number);
    // ahead of the starting day and not behind the day found, in one test: of two, the processor foresees badly where a list goes from one to the other
    if listed.wrapping_sub(day + 1) < ahead && monday_to_friday(listed) {
        next(day + ahead) - day
    } else {
        ahead
    }
}
