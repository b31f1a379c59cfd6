// The values of control charts and chart texts: what a call takes and what it answers, and the rules' numbers.

#![tactic(auto)]

ghost use Rattle.std.specs.Prelude.{◌≡◌};
ghost use Rattle.chart_rules.specs.Charts.{past_of};
ghost use Rattle.chart_rules.specs.Refusals.{number_of};
ghost use Rattle.chart_rules.specs.Judging.{text_number};

// ---- the rules' numbers

// The chart rows, 0 to 3.
pub const ROWS: u32 = 4;

// The last week that a set may have.
pub const LAST_WEEK: u32 = 9999;

// The largest result, in hundredths of a percent.
pub const LARGEST_RESULT: u32 = 10000;

// The pairs that a set has at most.
pub const MOST_PAIRS: u32 = 5;

// And its numbers, two for each pair.
pub const MOST_NUMBERS: usize = 2 * MOST_PAIRS as usize;

// The largest magnitude of a plot: no two means of results lie further apart.
pub const LARGEST_PLOT: u32 = LARGEST_RESULT;

// The largest range: no two differences of results lie further apart.
pub const LARGEST_RANGE: u32 = 20000;

// The sets that a chart holds at most.
pub const MOST_SETS: u32 = 4;

// The same, as an array's length.
pub const HELD_SETS: usize = MOST_SETS as usize;

// The bytes that a buffer has for a line.
pub const LINE_ROOM: usize = 40;

// The bytes that a text has at most.
pub const MOST_TEXT: usize = 65536;

// The bytes of its names line, behind which the value lines begin.
pub const NAMES_LENGTH: usize = 29;

// The text line of the first value line.
pub const FIRST_LINE: u32 = 2;

// The bytes of the program's buffer, which hold the output of every text.
pub const PROGRAM_ROOM: usize = 400000;

// ---- places

// The places of a chart.
pub const CHART_PLACES: usize = 15;

// Where its row stands.
pub const ROW_PLACE: usize = 0;

// Where its last week stands.
pub const WEEK_PLACE: usize = 1;

// Where the number of its sets stands.
pub const HELD_PLACE: usize = 2;

// Where its newest set begins.
pub const FIRST_SET: usize = 3;

// A row that there isn't.
pub const NO_ROW: u32 = 4294967295;

// ---- a chart

// A row's limits: of the average absolute, tolerance and run; of the range absolute and tolerance.
#[derive(Clone, Copy)]
pub struct Limits {
    pub al: u32,
    pub tl: u32,
    pub run: u32,
    pub ral: u32,
    pub rtl: u32,
}

// A set: the number of its pairs, its plotted average, the largest difference minus the smallest.
#[derive(Clone, Copy)]
pub struct ChartSet {
    pub count: u32,
    pub plot: i32,
    pub range: u32,
}

// A chart: its row, its last week, and its held sets, newest first, in the first `held` places: an array, since the core has no heap. The row is a number, as C hands it in and the places hold it.
#[derive(Clone, Copy)]
pub struct Chart {
    pub row: u32,
    pub week: u32,
    pub held: u32,
    pub sets: [ChartSet; HELD_SETS],
}

impl Chart {
    // The held sets; all of the places where `held` says more.
    pub fn past(&self) -> &[ChartSet]
        ensures { result.now ≡ past_of self.now }
    {
        &self.sets[..HELD_SETS.min(self.held as usize)]
    }
}

// What a set's output line says: the flags are values of it.
#[derive(Clone, Copy)]
pub struct Values {
    pub week: u32,
    pub count: u32,
    pub plot: i32,
    pub range: u32,
    pub al: bool,
    pub tl: bool,
    pub run: bool,
    pub ral: bool,
    pub rtl: bool,
}

// ---- its calls

// Numbers 0, 1 and 19 to 22.
#[derive(Clone, Copy)]
pub enum Refusal {
    UnsoundChart,
    UnknownRow,
    BadWeek,
    BadSize,
    BadResult,
    ShortBuffer,
}

// A refusal's number: by a match, as a station's.
impl From<Refusal> for u32 {
    ghost from_gives = { λ refusal n. n ≡ number_of refusal };

    fn from(refusal: Refusal) -> u32 {
        match refusal {
            Refusal::UnsoundChart => 0,
            Refusal::UnknownRow => 1,
            Refusal::BadWeek => 19,
            Refusal::BadSize => 20,
            Refusal::BadResult => 21,
            Refusal::ShortBuffer => 22,
        }
    }
}

// What an accepted call answers: the values of the output line, and its length in bytes.
#[derive(Clone, Copy)]
pub struct Charted {
    pub values: Values,
    pub length: usize,
}

// ---- a chart text

// A value line of a text.
#[derive(Clone, Copy)]
pub struct ValueLine {
    pub week: u32,
    pub sample: u32,
    pub original: u32,
    pub monitor: u32,
}

// Numbers 15 to 19, 21 and 22.
#[derive(Clone, Copy)]
pub enum TextRefusal {
    TooLong,
    BadNames,
    BadLine,
    BadSample,
    BadWeek,
    BadResult,
    ShortBuffer,
}

// A refusal's number: by a match, as a station's.
impl From<TextRefusal> for u32 {
    ghost from_gives = { λ refusal n. n ≡ text_number refusal };

    fn from(refusal: TextRefusal) -> u32 {
        match refusal {
            TextRefusal::TooLong => 15,
            TextRefusal::BadNames => 16,
            TextRefusal::BadLine => 17,
            TextRefusal::BadSample => 18,
            TextRefusal::BadWeek => 19,
            TextRefusal::BadResult => 21,
            TextRefusal::ShortBuffer => 22,
        }
    }
}

// A refused text: its refusal, and the text line that it names, 0 where it names none.
#[derive(Clone, Copy)]
pub struct RefusedText {
    pub refusal: TextRefusal,
    pub line: u32,
}

impl TextRefusal {
    // The refusal with its text line.
    pub fn at_line(self, line: u32) -> RefusedText
        ensures { result ≡ record { refusal = self; line = line } }
    {
        RefusedText {
            refusal: self,
            line,
        }
    }
}
