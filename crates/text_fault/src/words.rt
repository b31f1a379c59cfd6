// The words of a sentence: one function for each group of refusals.

use crate::names::NamesKind;
use crate::printable::Printable;
use crate::{fields, line_words, names, places, ruling_words};
use chart_rules::{RefusedText, TextRefusal};
use std::fmt;
use std::fmt::Write;

// The bytes of a line that a sentence shows at most.
const MOST_SHOWN: usize = 60;

// Text line `line`, which begins `rest`, in quotes.
fn write_line(out: &mut Printable, line: u32, rest: &[u8]) -> fmt::Result {
    write!(out, "line {line}: \"")?;
    let end = rest.iter().position(|c| *c == b'\n').unwrap_or(rest.len());
    let shown = rest.get(..end.min(MOST_SHOWN)).unwrap_or(rest);
    out.bytes(shown).map_err(|_| fmt::Error)?;
    let more = if end > MOST_SHOWN { ".." } else { "" };
    write!(out, "{more}\": ")
}

// Number 16.
fn write_names(out: &mut Printable, text: &[u8]) -> fmt::Result {
    write_line(out, 1, text)?;
    let words = match names::names_kind(text) {
        NamesKind::EmptyText =>
            "the text is empty, begin it with the line week sample original monitor",
        NamesKind::ByteOrderMark => "save the file without a byte order mark in front",
        NamesKind::CarriageReturn => "save the file with line feeds alone, as on Unix",
        NamesKind::CutShort => "end the line with a line feed",
        NamesKind::OtherNames =>
            "write week sample original monitor, in these letters, with single spaces",
    };
    write!(out, "{words}")?;
    line_words::write_column(out, names::names_column(text), None)
}

// Where the text has no such line: never of a text that was refused there.
fn write_number(out: &mut Printable, refused: RefusedText) -> fmt::Result {
    let number = u32::from(refused.refusal);
    let line = refused.line;
    write!(out, "line {line}: refused by number {number}")
}

// Numbers 17 to 19 and 21.
fn write_value_line(out: &mut Printable, text: &[u8], refused: RefusedText) -> fmt::Result {
    let Some(place) = places::place_of(text, refused.line) else {
        return write_number(out, refused);
    };
    let Some(line) = text.get(place.at..) else {
        return write_number(out, refused);
    };
    match (fields::fields(line), text_lines::read_line(text, place.at)) {
        (Err(fault), _) => {
            write_line(out, refused.line, line)?;
            line_words::write_fault(out, line, fault)
        }
        (Ok(columns), Some((v, _))) => {
            write_line(out, refused.line, line)?;
            ruling_words::write_ruling(out, refused.refusal, place, columns, v)
        }
        _ => write_number(out, refused),
    }
}

pub(crate) fn write_sentence(
    out: &mut Printable,
    text: &[u8],
    refused: RefusedText,
) -> fmt::Result {
    match refused.refusal {
        TextRefusal::TooLong => write!(
            out,
            "the text is longer than 65536 bytes: take out the oldest weeks"
        ),
        TextRefusal::ShortBuffer => write!(
            out,
            "the output is longer than its buffer: chart fewer weeks at a time"
        ),
        TextRefusal::BadNames => write_names(out, text),
        TextRefusal::BadLine
        | TextRefusal::BadSample
        | TextRefusal::BadWeek
        | TextRefusal::BadResult => { write_value_line(out, text, refused) }
    }
}
