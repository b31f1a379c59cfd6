// What is wrong with a text's first line.

ghost use Rattle.std.specs.Prelude.{◌≡◌, ◌+◌, ◌≤◌, nat_eq};
ghost use Rattle.std.specs.List.{common_prefix_len};
ghost use Rattle.chart_rules.specs.TextLines.{names_line};

use chart_rules::NAMES_LENGTH;

const NAMES: &[u8; NAMES_LENGTH] = b"week sample original monitor\n";

const BYTE_ORDER_MARK: &[u8] = b"\xef\xbb\xbf";

// What a technician has to mend in the names line.
#[derive(Clone, Copy, PartialEq, Eq)]
pub enum NamesKind {
    EmptyText,
    ByteOrderMark,
    CarriageReturn,
    CutShort,
    OtherNames,
}

// How many bytes at the front are the names line's: as many as it has where it is there.
fn names_length(text: &[u8]) -> usize
    ensures length { result ≡ common_prefix_len nat_eq text.now names_line }
    ensures within { result ≤ 29 }
{
    for (i, c) in NAMES.iter().enumerate() {
        if text.len() <= i || text[i] != *c {
            return i;
        }
    }
    NAMES_LENGTH
}

// The column, from 1, of the first byte that isn't the names line's.
pub(crate) fn names_column(text: &[u8]) -> usize
    ensures { result ≡ common_prefix_len nat_eq text.now names_line + 1 }
{
    names_length(text) + 1
}

pub(crate) fn names_kind(text: &[u8]) -> NamesKind {
    if text.is_empty() {
        return NamesKind::EmptyText;
    }
    if text.starts_with(BYTE_ORDER_MARK) {
        return NamesKind::ByteOrderMark;
    }
    match (
        names_length(text) == NAMES_LENGTH - 1,
        text.get(NAMES_LENGTH - 1),
    ) {
        (true, None) => NamesKind::CutShort,
        (true, Some(b'\r')) => NamesKind::CarriageReturn,
        _ => NamesKind::OtherNames,
    }
}
