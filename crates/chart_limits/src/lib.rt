// The chart rules: a row's limits, and the absolute and tolerance limits of a set after the sets before it.

#![tactic(auto)]

ghost use Rattle.std.specs.Prelude.{◌≡◌};
ghost use Rattle.chart_rules.specs.Rows.{limits_of};
ghost use Rattle.chart_rules.specs.Limits.{absolute, tolerance, range_absolute, range_tolerance};

use chart_rules::{ChartSet, Limits};

// A row's limits, five numbers of which no line has its own, so a match and no table; a row that doesn't exist has limits of 0, as in the rules. The row is a number, as C hands it in and the places hold it.
#[tactic(auto, unfolding(chart_rules::specs::Rows::limits_of))]
pub fn limits_of(row: u32) -> Limits
    ensures { result ≡ limits_of row }
{
    let (al, tl, run, ral, rtl) = match row {
        0 => (20, 15, 10, 60, 40),
        1 => (25, 20, 10, 70, 50),
        2 => (25, 20, 15, 80, 60),
        3 => (20, 15, 10, 60, 45),
        _ => (0, 0, 0, 0, 0),
    };
    Limits {
        al,
        tl,
        run,
        ral,
        rtl,
    }
}

// ---- absolute and tolerance

// The magnitude of what the set plots is equal to or above the limit.
#[tactic(auto, unfolding(chart_rules::specs::Limits::absolute))]
fn reaches(limit: u32, s: ChartSet) -> bool
    ensures { result ≡ absolute limit s }
{
    limit <= s.plot.unsigned_abs()
}

// A set to be judged by its row's limits after the sets before it, newest first.
#[derive(Clone, Copy)]
pub struct Judged<'a> {
    pub limits: Limits,
    pub set: ChartSet,
    pub past: &'a [ChartSet],
}

impl Judged<'_> {
    pub fn absolute(&self) -> bool
        ensures { result ≡ absolute self.now.limits.al self.now.set }
    {
        reaches(self.limits.al, self.set)
    }

    // This set and the one before it, both at or above the upper line, or both at or below the lower.
    #[tactic(auto, unfolding(chart_rules::specs::Limits::absolute, chart_rules::specs::Limits::tolerance, chart_rules::specs::Limits::at_or_above, chart_rules::specs::Limits::at_or_below))]
    pub fn tolerance(&self) -> bool
        ensures { result ≡ tolerance self.now.limits.tl self.now.set self.now.past.now }
    {
        let [before, ..] = self.past else {
            return false;
        };
        reaches(self.limits.tl, self.set)
            && reaches(self.limits.tl, *before)
            && ((0 <= self.set.plot && 0 <= before.plot)
                || (self.set.plot <= 0 && before.plot <= 0))
    }

    pub fn range_absolute(&self) -> bool
        ensures { result ≡ range_absolute self.now.limits.ral self.now.set }
    {
        self.limits.ral <= self.set.range
    }

    #[tactic(auto, unfolding(chart_rules::specs::Limits::range_tolerance))]
    pub fn range_tolerance(&self) -> bool
        ensures { result ≡ range_tolerance self.now.limits.rtl self.now.set self.now.past.now }
    {
        let [newest, ..] = self.past else {
            return false;
        };
        self.limits.rtl <= self.set.range && self.limits.rtl <= newest.range
    }
}
