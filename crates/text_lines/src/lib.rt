// Reads the value lines of the chart text: four decimals, single spaces, a line feed.
// Text and position stay two parameters, for the reason that text_numbers gives.

#![tactic(auto)]

ghost use Rattle.std.specs.Prelude.{◌≡◌};
ghost use Rattle.chart_rules.specs.TextLines.{field as field_of, line_at, names_line, starts_with};
ghost use Rattle.chart_rules.specs.Judging.{value_lines as lines_of};
ghost use Rattle.text_lines.specs.Lines.{lines_left};

use chart_rules::{NAMES_LENGTH, ValueLine};

// The number at position at with the byte end behind it: the position moves past that byte.
#[tactic(auto, using(chart_rules::proofs::Fields::field_steps))]
pub fn field(text: &[u8], end: u8, at: usize) -> Option<(u32, usize)>
    ensures { result ≡ field_of text.now end at }
{
    let (n, i) = text_numbers::number_at(text, at)?;
    if *text.get(i)? == end {
        Some((n, i + 1))
    } else {
        None
    }
}

// The value line at position at.
#[tactic(auto, unfolding(chart_rules::specs::TextLines::line_at, chart_rules::specs::TextLines::then))]
pub fn read_line(text: &[u8], at: usize) -> Option<(ValueLine, usize)>
    ensures { result ≡ line_at text.now at }
{
    let (week, i) = field(text, b' ', at)?;
    let (sample, j) = field(text, b' ', i)?;
    let (original, k) = field(text, b' ', j)?;
    let (monitor, next) = field(text, b'\n', k)?;
    let line = ValueLine {
        week,
        sample,
        original,
        monitor,
    };
    Some((line, next))
}

// Whether the text's first line is the names line, with its line feed.
pub fn has_names(text: &[u8]) -> bool
    ensures { result ≡ starts_with names_line text.now }
{
    text.starts_with(b"week sample original monitor\n")
}

// The value lines of a text from a position on, one after another. One that can't be read comes as None, and is the last.
#[derive(Drop)]
pub struct ValueLines<'a> {
    text: &'a [u8],
    at: usize,
}

impl<'a> Iterator for ValueLines<'a> {
    ghost use Rattle.std.specs.Iterator.{YieldsFirst, item_count};

    type Item = Option<ValueLine>;

    ghost next_gives = { YieldsFirst lines_left };

    ghost remaining = { item_count lines_left };

    #[tactic(auto, using(chart_rules::proofs::TextLines::lines_steps))]
    fn next(&mut self) -> Option<Option<ValueLine>> {
        if self.text.len() <= self.at {
            return None;
        }
        let Some((line, next)) = read_line(self.text, self.at) else {
            self.at = self.text.len();
            return Some(None);
        };
        self.at = next;
        Some(Some(line))
    }
}

// The value lines of a text, behind its names line.
pub fn value_lines(text: &[u8]) -> ValueLines<'_>
    ensures { lines_left result ≡ lines_of text.now }
{
    ValueLines {
        text,
        at: NAMES_LENGTH,
    }
}
