// Where a value line stops being one: the number under way, where it begins, and the first byte at which no value line
// goes on.
// A line is handed in as the text from its first byte on: what stands behind its line feed is not looked at.

ghost use Rattle.std.specs.Prelude.{◌≡◌, ◌≤◌, length, take, IfOk};
ghost use Rattle.std.specs.List.{prefix_len};
ghost use Rattle.chart_rules.specs.TextLines.{is_digit};
ghost use Rattle.text_fault.specs.Fields.{behind, fields, number_length};

use crate::kinds;
use crate::kinds::Kind;

// The digits that a number has at most.
const MOST_DIGITS: usize = 5;

// The numbers of a value line.
#[derive(Clone, Copy, PartialEq, Eq)]
pub enum Field {
    Week,
    Sample,
    Original,
    Monitor,
}

impl Field {
    pub(crate) fn name(self) -> &'static str {
        match self {
            Field::Week => "week",
            Field::Sample => "sample",
            Field::Original => "original",
            Field::Monitor => "monitor",
        }
    }

    // The number behind it; the last is its own.
    pub(crate) fn next(self) -> Self {
        match self {
            Field::Week => Field::Sample,
            Field::Sample => Field::Original,
            Field::Original | Field::Monitor => Field::Monitor,
        }
    }
}

// The number under way and the position at which it begins; the column, from 1, of the first byte at which no value
// line goes on, and what is wrong there.
#[derive(Clone, Copy)]
pub struct Fault {
    pub field: Field,
    pub start: usize,
    pub column: usize,
    pub kind: Kind,
}

impl Fault {
    // The first number that isn't there: behind some digits the next.
    pub(crate) fn missing(self) -> Field {
        if self.start.saturating_add(1) < self.column {
            self.field.next()
        } else {
            self.field
        }
    }
}

// The columns, from 1, at which a value line's numbers begin; the week's is 1.
#[derive(Clone, Copy)]
pub struct Columns {
    pub sample: usize,
    pub original: usize,
    pub monitor: usize,
}

// How many digits stand at the front, up to five.
fn digits_length(bytes: &[u8]) -> usize
    ensures { result ≡ prefix_len is_digit (take 5 bytes.now) }
{
    bytes
        .iter()
        .take(MOST_DIGITS)
        .take_while(|c| c.is_ascii_digit())
        .count()
}

// How many bytes at the front can stand in a number: a lone 0, or up to five digits.
#[tactic(auto, using(crate::proofs::Lengths::length_steps))]
fn number_length(bytes: &[u8]) -> usize
    ensures length { result ≡ number_length bytes.now }
    ensures within { result ≤ length bytes.now }
{
    if kinds::begins_zero(bytes) {
        1
    } else {
        digits_length(bytes)
    }
}

// The position behind the number that begins at start and the byte end, or where it stops being one.
#[tactic(auto, unfolding(crate::specs::Fields::behind))]
fn behind(line: &[u8], field: Field, start: usize, end: u8) -> Result<usize, Fault>
    requires { start ≤ length line.now }
    ensures value { result ≡ behind line.now field start end }
    ensures within { IfOk result (λ next. next ≤ length line.now) }
{
    let at = start + number_length(&line[start..]);
    if start < at && at < line.len() && line[at] == end {
        Ok(at + 1)
    } else {
        Err(Fault {
            field,
            start,
            column: at + 1,
            kind: kinds::kind_at(line, field, start, at),
        })
    }
}

// Where the numbers of a value line begin, or where it stops being one.
#[tactic(auto, unfolding(crate::specs::Fields::fields, crate::specs::Fields::go_on))]
pub(crate) fn fields(line: &[u8]) -> Result<Columns, Fault>
    ensures { result ≡ fields line.now }
{
    let sample = behind(line, Field::Week, 0, b' ')?;
    let original = behind(line, Field::Sample, sample, b' ')?;
    let monitor = behind(line, Field::Original, original, b' ')?;
    behind(line, Field::Monitor, monitor, b'\n')?;
    Ok(Columns {
        sample: sample + 1,
        original: original + 1,
        monitor: monitor + 1,
    })
}
