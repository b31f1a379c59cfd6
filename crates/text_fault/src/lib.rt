// The sentence that tells a technician why a chart text is refused: the text line, its text, what to mend, and where.

#![tactic(auto)]

ghost use Rattle.std.specs.Prelude.{IfOk, string_bytes};
ghost use Rattle.text_fault.specs.Ascii.{IsPrintable};

use chart_rules::RefusedText;
use printable::Printable;
use std::alloc::{AllocError, Global};

mod fields;
mod kinds;
mod line_words;
mod names;
mod numbers;
mod places;
mod printable;
mod ruling_words;
mod words;

// The sentence of a text that was refused: printable ASCII, so without a line feed. Its only error is that of memory.
// Where it points is defined and proved; the words are only tested.
pub fn sentence(alloc: Global, text: &[u8], refused: RefusedText) -> Result<String, AllocError>
    ensures { IfOk result (λ s. IsPrintable (string_bytes s)) }
{
    let mut out = Printable::new(alloc);
    words::write_sentence(&mut out, text, refused).map_err(|_| AllocError)?;
    let Printable { text } = out;
    Ok(text)
}

#[cfg(test)]
mod tests;
