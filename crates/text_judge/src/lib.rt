// A chart text's lines judged in turn: numbers 15 to 19 and 21, with the text line.

#![tactic(auto)]

ghost use Rattle.std.specs.Prelude.{◌≡◌, ◌≤◌, length};
ghost use Rattle.chart_rules.specs.Judging.{first_ruling, value_lines, lines_checks, verdict, starts, judged};

use chart_rules::{FIRST_LINE, MOST_TEXT, RefusedText, TextRefusal};

// The value lines, behind the names line, each judged after the one before: how many sets they have.
#[tactic(auto, using(chart_rules::proofs::Judging::judge_steps, chart_rules::proofs::TextLines::lines_few))]
fn judge_lines(text: &[u8]) -> Result<usize, RefusedText>
    requires { length text.now ≤ 65536 }
    ensures { result ≡ verdict (first_ruling (lines_checks 0 0 2 (value_lines text.now))) (starts (value_lines text.now)) }
{
    let mut week: u32 = 0;
    let mut sample: u32 = 0;
    let mut sets: usize = 0;
    for (read, line) in text_lines::value_lines(text).zip(FIRST_LINE..) {
        let Some(v) = read else {
            return Err(TextRefusal::BadLine.at_line(line));
        };
        text_ruling::rule(week, sample, line, v)?;
        sets += usize::from(v.sample == 1);
        week = v.week;
        sample = v.sample;
    }
    Ok(sets)
}

// A good text's number of sets, or the first refusal that applies.
#[tactic(auto, unfolding(chart_rules::specs::Judging::judged))]
pub fn judge(text: &[u8]) -> Result<usize, RefusedText>
    ensures { result ≡ judged text.now }
{
    if MOST_TEXT < text.len() {
        return Err(TextRefusal::TooLong.at_line(0));
    }
    if !text_lines::has_names(text) {
        return Err(TextRefusal::BadNames.at_line(1));
    }
    judge_lines(text)
}
