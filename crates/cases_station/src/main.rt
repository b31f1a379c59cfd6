// The cases that carry no star, each number of refusal once, and whole lists of calls: each call is run, and its answer printed.

#![tactic(auto)]

mod calls;
mod gluten;
mod lists;
mod numbers;
mod order;
mod phases;
mod say;
mod sheets;
mod worked;
mod zeros;

use std::io;

fn main(rt: HostRuntime) -> io::Result<()> {
    worked::deviations(&rt)?;
    worked::adjustments(&rt)?;
    worked::figures(&rt)?;
    worked::days_and_bases(&rt)?;
    numbers::stations(&rt)?;
    numbers::sizes(&rt)?;
    numbers::sheet_numbers(&rt)?;
    numbers::lines(&rt, numbers::scans(&rt)?)?;
    order::accepted(&rt)?;
    order::refused(&rt)?;
    phases::in_turn(&rt)?;
    phases::opened_and_repaired(&rt)?;
    phases::repaired_check(&rt)?;
    phases::order(&rt)?;
    gluten::intercepts(&rt)?;
    gluten::derived(&rt)?;
    gluten::scans(&rt)?;
    gluten::numbers(&rt)?;
    lists::repaired(&rt, lists::adjusted(&rt)?)?;
    lists::shut_by_none(&rt)?;
    lists::shut_by_bound(&rt)?;
    lists::corn(&rt)?;
    lists::five_sets(&rt)?;
    zeros::between(&rt)?;
    zeros::at_hand(&rt)?;
    zeros::newest(&rt)?;
    zeros::ages(&rt)?;
    zeros::emptied(&rt)?;
    zeros::unsound(&rt)
}
