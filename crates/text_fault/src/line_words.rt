// The words for a value line that isn't one: number 17.

use crate::fields::{Fault, Field};
use crate::kinds::Kind;
use crate::numbers;
use crate::printable::Printable;
use std::fmt;
use std::fmt::Write;

// The bytes of a number that a sentence shows at most.
const MOST_NUMBER: usize = 9;

// A decimal's point or comma, with the number as it should be where it makes sense.
fn write_decimal(out: &mut Printable, line: &[u8], fault: Fault, point: &str) -> fmt::Result {
    if matches!(fault.field, Field::Week | Field::Sample) {
        let name = fault.field.name();
        return write!(out, "write the {name} as a whole number");
    }
    write!(out, "write hundredths without a {point}")?;
    match numbers::hundredths(numbers::word_at(line, fault.start)) {
        Some(n) => write!(out, ", {n}"),
        None => Ok(()),
    }
}

fn write_leading_zero(out: &mut Printable, line: &[u8], fault: Fault) -> fmt::Result {
    let word = numbers::word_at(line, fault.start);
    match numbers::value_of(word) {
        Some(n) if word.len() <= MOST_NUMBER => {
            write!(out, "write {n}, not ")?;
            out.bytes(word).map_err(|_| fmt::Error)
        }
        _ => write!(out, "write the number without a zero in front"),
    }
}

fn write_kind(out: &mut Printable, line: &[u8], fault: Fault) -> fmt::Result {
    match fault.kind {
        Kind::NoLineFeed => write!(
            out,
            "end the line with a line feed; was the last line cut short?"
        ),
        Kind::CutShort => write!(
            out,
            "the text ends here: write four numbers and a line feed"
        ),
        Kind::CarriageReturn => write!(out, "save the file with line feeds alone, as on Unix"),
        Kind::EmptyLine => write!(out, "remove the empty line"),
        Kind::SpaceInFront => write!(out, "remove the space or tab in front"),
        Kind::Spacing => write!(out, "write single spaces between the numbers"),
        Kind::SpaceAtEnd => write!(out, "remove the space or tab at the end"),
        Kind::TooFew => {
            let name = fault.missing().name();
            write!(out, "write four numbers, the {name} is missing")
        }
        Kind::TooMany => write!(out, "write four numbers alone"),
        Kind::Point => write_decimal(out, line, fault, "point"),
        Kind::Comma => write_decimal(out, line, fault, "comma"),
        Kind::Minus => write!(out, "write no minus, a number is 0 or more"),
        Kind::LeadingZero => write_leading_zero(out, line, fault),
        Kind::SixDigits => write!(out, "write at most five digits"),
        Kind::OtherSign => write!(
            out,
            "write digits alone, with single spaces between the numbers"
        ),
    }
}

// The number that a fault speaks of, if it speaks of one.
fn field_meant(fault: Fault) -> Option<Field> {
    match fault.kind {
        Kind::TooFew => Some(fault.missing()),
        Kind::CutShort
        | Kind::Point
        | Kind::Comma
        | Kind::Minus
        | Kind::LeadingZero
        | Kind::SixDigits
        | Kind::OtherSign => { Some(fault.field) }
        _ => None,
    }
}

// A column, from 1, and the name of the number that is meant.
pub(crate) fn write_column(
    out: &mut Printable,
    column: usize,
    field: Option<Field>,
) -> fmt::Result {
    match field {
        Some(field) => {
            let name = field.name();
            write!(out, " (column {column}, {name})")
        }
        None => write!(out, " (column {column})"),
    }
}

pub(crate) fn write_fault(out: &mut Printable, line: &[u8], fault: Fault) -> fmt::Result {
    write_kind(out, line, fault)?;
    write_column(out, fault.column, field_meant(fault))
}
