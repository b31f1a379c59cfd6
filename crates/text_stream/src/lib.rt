// A chart text from a reader, charted to a writer: all that the chart program does between its input and its output.

#![tactic(auto)]

ghost use Rattle.std.specs.Prelude.{◌≡◌, ◌≢◌, IfErr, IfOk, IfSome, OnOk, length, take, vec_len};
ghost use Rattle.std.specs.IoError.{error_kind};
ghost use Rattle.std.specs.Io.KnownBytes.{Appends, Keeps};
ghost use Rattle.chart_rules.specs.Printing.{printed};
ghost use Rattle.text_print.specs.Refusing.{refused_of};
ghost use Rattle.text_stream.specs.Streams.{text_of, written_of, refusal_in, IsNotRead};

use chart_rules::{MOST_TEXT, PROGRAM_ROOM, RefusedText};
use std::alloc::{AllocError, Global};
use std::io;
use std::io::{ErrorKind, Read, Write};

// One byte more than a text may have, so that a longer one is seen.
const TEXT_ROOM: u64 = MOST_TEXT as u64 + 1;

// The bytes that a reader holds, up to a limit.
fn read_up_to<R: Read>(alloc: Global, input: &mut R, limit: u64) -> io::Result<Vec<u8>>
    ensures held { IfOk result (λ text. IfSome (R.remaining input.old) (λ held. text.items ≡ take limit held)) }
    ensures retried { IfErr result (λ e. error_kind e ≢ ErrorKind.Interrupted) }
{
    let mut text = Vec::new(alloc);
    input.take(limit).read_to_end(&mut text)?;
    Ok(text)
}

/// The text that a reader holds, up to 65537 bytes. An interrupted read is tried again.
pub fn read_text<R: Read>(alloc: Global, input: &mut R) -> io::Result<Vec<u8>>
    ensures held { IfOk result (λ text. IfSome (R.remaining input.old) (λ held. text.items ≡ text_of held)) }
    ensures retried { IfErr result (λ e. error_kind e ≢ ErrorKind.Interrupted) }
{
    read_up_to(alloc, input, TEXT_ROOM)
}

// A buffer of zeros.
fn room(alloc: Global, length: usize) -> Result<Vec<u8>, AllocError>
    ensures { IfOk result (λ out. vec_len out ≡ length) }
{
    vec![in alloc; 0; length]
}

// What is printed of a text, by way of a buffer.
fn print_by<W: Write>(
    text: &[u8],
    out: &mut [u8],
    output: &mut W,
) -> io::Result<Option<RefusedText>>
    ensures told { IfOk result (λ refused. refused ≡ refused_of text.now (length out.old)) }
    ensures written { OnOk result
        (Appends (W.contents output.old) (W.contents output.new) (printed text.now (length out.old))) }
{
    let printed = text_print::print_text(text, out);
    output.write_all(&out[..printed.length])?;
    Ok(printed.refused)
}

// The same by way of a buffer of that length.
fn print_in<W: Write>(
    alloc: Global,
    text: &[u8],
    length: usize,
    output: &mut W,
) -> io::Result<Option<RefusedText>>
    ensures told { IfOk result (λ refused. refused ≡ refused_of text.now length) }
    ensures written { OnOk result (Appends (W.contents output.old) (W.contents output.new) (printed text.now length)) }
{
    let mut out = room(alloc, length)?;
    print_by(text, &mut out, output)
}

/// Writes a text's chart, or the line of its refusal, and tells the refusal.
pub fn write_chart<W: Write>(
    alloc: Global,
    text: &[u8],
    output: &mut W,
) -> io::Result<Option<RefusedText>>
    ensures told { IfOk result (λ refused. refused ≡ refusal_in text.now) }
    ensures written { OnOk result (Appends (W.contents output.old) (W.contents output.new) (written_of text.now)) }
{
    print_in(alloc, text, PROGRAM_ROOM, output)
}

/// What kept a text from being charted: its input could not be read, and nothing was written; or its output could not
/// be written whole.
#[derive(Debug, Drop)]
pub enum StreamError {
    NotRead(io::Error),
    NotWritten(io::Error),
}

/// A text that was read, and the refusal where it was refused.
#[derive(Drop)]
pub struct Charted {
    pub text: Vec<u8>,
    pub refused: Option<RefusedText>,
}

/// The whole work: reads a text to its end or to 65537 bytes, and writes its chart, or the line of its refusal.
pub fn chart<R: Read, W: Write>(
    alloc: Global,
    input: &mut R,
    output: &mut W,
) -> Result<Charted, StreamError>
    ensures text { IfOk result (λ done. IfSome (R.remaining input.old) (λ held. done.text.items ≡ text_of held)) }
    ensures told { IfOk result (λ done. IfSome (R.remaining input.old) (λ held.
        done.refused ≡ refusal_in (text_of held))) }
    ensures written { OnOk result (IfSome (R.remaining input.old) (λ held.
        Appends (W.contents output.old) (W.contents output.new) (written_of (text_of held)))) }
    ensures unread { IfErr result (λ e. IsNotRead e → Keeps (W.contents output.old) (W.contents output.new)) }
{
    let text = read_text(alloc, input).map_err(StreamError::NotRead)?;
    let refused = write_chart(alloc, &text, output).map_err(StreamError::NotWritten)?;
    Ok(Charted { text, refused })
}
