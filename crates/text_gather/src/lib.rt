// A chart text's lines grouped into sets, each set charted when it is complete.

#![tactic(auto)]

ghost use Rattle.std.specs.Prelude.{◌≡◌, ◌+◌, ◌*◌, ◌<◌, ◌≤◌, length, take};
ghost use Rattle.decimal.specs.Put.{Put};
ghost use Rattle.chart_rules.specs.Places.{chart_at};
ghost use Rattle.chart_rules.specs.Fine.{FineLine};
ghost use Rattle.chart_rules.specs.Gathering.{finished, closed};
ghost use Rattle.chart_rules.specs.Output.{chart_all};

use chart_rules::{CHART_PLACES, MOST_NUMBERS, ValueLine};

// A set under way: its week, the number of its pairs, five at most, and the pairs one after the other.
// Without a heap its numbers lie in an array that has room for the most.
#[derive(Clone, Copy)]
pub struct TextSet {
    pub week: u32,
    pub count: usize,
    pub numbers: [i32; MOST_NUMBERS],
    pub ghost few: { count ≤ 5 },
}

impl TextSet {
    ghost use Rattle.text_gather.specs.Progress.{Empty, Grown};

    // No set: a count of 0, which an Option would be asked for besides.
    #[tactic(auto, unfolding(crate::specs::Progress::seen))]
    fn none() -> TextSet
        ensures { Empty result }
    {
        TextSet {
            week: 0,
            count: 0,
            numbers: [0; MOST_NUMBERS],
        }
    }

    // The numbers that it has so far.
    fn held(&self) -> &[i32]
        ensures { result.now ≡ take (2 * self.now.count) self.now.numbers }
    {
        &self.numbers[..2 * self.count]
    }

    // A line's pair joins it.
    #[tactic(auto, unfolding(crate::specs::Progress::seen), using(crate::proofs::Seen::grown))]
    fn join(&mut self, v: ValueLine)
        requires { (self.old.count < 5) × ((v.original ≤ 10000) × (v.monitor ≤ 10000)) }
        ensures { Grown self.old v self.new }
    {
        let at = 2 * self.count;
        self.week = v.week;
        self.numbers[at] = v.original as i32;
        self.numbers[at + 1] = v.monitor as i32;
        self.count += 1;
    }
}

// The chart so far, in its places, the set under way, and where the next output line goes. The buffer is lent to each call: kept here it would be promised again by each that it is the same.
#[derive(Clone, Copy)]
pub struct Progress {
    pub chart: [i32; CHART_PLACES],
    pub set: TextSet,
    pub end: usize,
}

impl Progress {
    ghost use Rattle.text_gather.specs.Progress.{seen, Begun, Flushed, Stepped};

    // Before the first line: a fresh chart of wheat, no set, and the first line goes to start.
    #[tactic(auto, unfolding(chart_rules::specs::Places::chart_at, chart_rules::specs::Places::chart_in, chart_rules::specs::Places::chart_set_at))]
    pub fn begin(start: usize) -> Progress
        ensures { Begun start result }
    {
        Progress {
            chart: [0; CHART_PLACES],
            set: TextSet::none(),
            end: start,
        }
    }

    // The set under way is charted, if it has a line.
    pub fn flush(&mut self, out: &mut [u8])
        requires { self.old.end + 40 * length (finished (seen self.old.set)) ≤ length out.old }
        ensures { Flushed self.old self.new × Put out.old self.old.end (chart_all (chart_at self.old.chart) (finished (seen self.old.set))) out.new self.new.end }
    {
        let set = self.set;
        self.set = TextSet::none();
        if set.count == 0 {
            return;
        }
        let answer = chart::chart_set_at(&mut self.chart, set.week, set.held(), out, self.end);
        // no refusal where the text is good: its sets are charted
        if let Ok(charted) = answer {
            self.end += charted.length;
        }
    }

    // A line after the set under way: with sample 1 it ends that set and begins the next.
    pub fn take_line(&mut self, v: ValueLine, out: &mut [u8])
        requires fine_line { FineLine self.old.set.week self.old.set.count v }
        requires room { self.old.end + 40 * length (closed (seen self.old.set) v) ≤ length out.old }
        ensures { Stepped self.old v self.new × Put out.old self.old.end (chart_all (chart_at self.old.chart) (closed (seen self.old.set) v)) out.new self.new.end }
    {
        if v.sample == 1 {
            self.flush(out);
        }
        self.set.join(v);
    }
}
