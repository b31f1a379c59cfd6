// A chart text judged and charted whole.
// Text and buffer stay two parameters: the exported call is given both, from C.

#![tactic(auto)]

ghost use Rattle.std.specs.Prelude.{◌≡◌, ◌+◌, ◌*◌, ◌≤◌, length};
ghost use Rattle.decimal.specs.Put.{Put};
ghost use Rattle.chart_rules.specs.Judging.{value_lines};
ghost use Rattle.chart_rules.specs.Fine.{GoodLines};
ghost use Rattle.chart_rules.specs.Output.{text_sets, text_lines, chart_text_of};

use chart_rules::{LINE_ROOM, RefusedText, TextRefusal};
use text_gather::Progress;

// The lines of a good text's sets, from position start on: the position behind them.
fn write_sets(text: &[u8], out: &mut [u8], start: usize) -> usize
    requires good_lines { GoodLines 0 0 (value_lines text.now) }
    requires text_in_bounds { start + 40 * length (text_sets text.now) ≤ length out.old }
    ensures { Put out.old start (text_lines text.now) out.new result }
{
    let mut p = Progress::begin(start);
    for read in text_lines::value_lines(text) {
        let Some(v) = read else {
            // never: a good text has no such line
            return start;
        };
        p.take_line(v, out);
    }
    p.flush(out);
    p.end
}

// A chart text judged, and where it is good charted as wheat: the names line and one line for each set, from the buffer's start on.
// No later byte is touched, and on refusal none.
pub fn chart_text(text: &[u8], out: &mut [u8]) -> Result<usize, RefusedText>
    ensures { chart_text_of text.now out.old ≡ record { answer = result; buffer = out.new } }
{
    let sets = text_judge::judge(text)?;
    if out.len() / LINE_ROOM <= sets {
        return Err(TextRefusal::ShortBuffer.at_line(0));
    }
    let start = decimal::put_bytes(out, 0, b"week n plot range al tl run ral rtl\n");
    Ok(write_sets(text, out, start))
}
