// What the chart program prints. Text and buffer stay two parameters, as in text.

#![tactic(auto)]

ghost use Rattle.std.specs.Prelude.{◌≡◌, ◌≤◌, length};
ghost use Rattle.decimal.specs.Put.{Put};
ghost use Rattle.chart_rules.specs.Printing.{refusal_bytes, printed_of};
ghost use Rattle.text_print.specs.Refusing.{refused_of};

use chart_rules::{LINE_ROOM, RefusedText};

// How many bytes were printed, and the refusal where it is one that they tell.
#[derive(Clone, Copy)]
pub struct Printed {
    pub length: usize,
    pub refused: Option<RefusedText>,
}

// `refused`, the number and the text line, from the buffer's start on: the length.
#[tactic(auto, using(decimal::proofs::Show::width_10))]
fn put_refusal(out: &mut [u8], number: u32, line: u32) -> usize
    requires { 40 ≤ length out.old }
    ensures { (Put out.old 0 (refusal_bytes number line) out.new result) × (result ≤ 40) }
{
    let a = decimal::put_bytes(out, 0, b"refused");
    let b = decimal::put_field(out, a, number);
    let c = decimal::put_field(out, b, line);
    decimal::put_byte(out, c, b'\n')
}

// What the program prints, from the buffer's start on: the text's output, or the line of its refusal.
// A buffer of fewer than 40 bytes gets nothing.
#[tactic(auto, using(chart_rules::proofs::Printing::printed_short), unfolding(crate::specs::Refusing::refused_of))]
pub fn print_text(text: &[u8], out: &mut [u8]) -> Printed
    ensures printed { printed_of text.now out.old ≡ record { length = result.length; buffer = out.new } }
    ensures refused { result.refused ≡ refused_of text.now (length out.old) }
    ensures fits { result.length ≤ length out.old }
{
    if out.len() < LINE_ROOM {
        return Printed {
            length: 0,
            refused: None,
        };
    }
    match text::chart_text(text, out) {
        Ok(length) => Printed {
            length,
            refused: None,
        },
        Err(refused) => {
            let number = u32::from(refused.refusal);
            Printed {
                length: put_refusal(out, number, refused.line),
                refused: Some(refused),
            }
        }
    }
}
