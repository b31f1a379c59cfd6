// What is wrong at a fault.

ghost use Rattle.std.specs.Prelude.{◌≡◌, ◌≤◌, length};
ghost use Rattle.chart_rules.specs.TextLines.{begins};
ghost use Rattle.text_fault.specs.Kinds.{all_stand, byte_kind, comma_kind, gap_kind, is_blank, is_gap, kind_at};

use crate::fields::Field;

// What a technician has to mend in a value line.
#[derive(Clone, Copy, PartialEq, Eq)]
pub enum Kind {
    NoLineFeed,
    CutShort,
    CarriageReturn,
    EmptyLine,
    SpaceInFront,
    Spacing,
    SpaceAtEnd,
    TooFew,
    TooMany,
    Point,
    Comma,
    Minus,
    LeadingZero,
    SixDigits,
    OtherSign,
}

// What stands before a byte in its line: the number that is under way, and whether it begins with a 0;
// whether nothing stands before it, and whether all four numbers do.
#[derive(Clone, Copy)]
struct Before {
    field: Field,
    zero: bool,
    nothing: bool,
    all: bool,
}

// A space or a tab.
fn is_gap(c: u8) -> bool
    ensures { result ≡ is_gap c }
{
    c == b' ' || c == b'\t'
}

// Nothing but spaces and tabs up to the line's end.
#[tactic(auto, using(crate::proofs::AtFault::blank_steps))]
fn is_blank(bytes: &[u8]) -> bool
    ensures { result ≡ is_blank bytes.now }
{
    for c in bytes {
        if !is_gap(*c) {
            return *c == b'\r' || *c == b'\n';
        }
    }
    true
}

// What a space or a tab is, where none can stand.
fn gap_kind(blank: bool, nothing: bool, all: bool) -> Kind
    ensures { result ≡ gap_kind blank nothing all }
{
    match (blank, nothing, all) {
        (true, true, _) => Kind::EmptyLine,
        (false, true, _) => Kind::SpaceInFront,
        (true, false, true) => Kind::SpaceAtEnd,
        (true, false, false) => Kind::TooFew,
        (false, false, true) => Kind::TooMany,
        (false, false, false) => Kind::Spacing,
    }
}

// A comma: between whole numbers, or in a decimal.
fn comma_kind(field: Field) -> Kind
    ensures { result ≡ comma_kind field }
{
    match field {
        Field::Week | Field::Sample => Kind::Spacing,
        Field::Original | Field::Monitor => Kind::Comma,
    }
}

// The kind by a byte, which stands first of these.
#[tactic(auto, unfolding(crate::specs::Kinds::byte_kind))]
fn byte_kind(c: u8, bytes: &[u8], before: Before) -> Kind
    ensures { result ≡ byte_kind c bytes.now before }
{
    match c {
        b'\r' => Kind::CarriageReturn,
        b'\n' if before.nothing => Kind::EmptyLine,
        b'\n' => Kind::TooFew,
        b' ' | b'\t' => gap_kind(is_blank(bytes), before.nothing, before.all),
        b',' => comma_kind(before.field),
        b'.' => Kind::Point,
        b'-' => Kind::Minus,
        b'0'..=b'9' if before.zero => Kind::LeadingZero,
        b'0'..=b'9' => Kind::SixDigits,
        _ => Kind::OtherSign,
    }
}

// A zero stands first.
#[tactic(auto, using(crate::proofs::AtFault::zero_steps))]
pub(crate) fn begins_zero(bytes: &[u8]) -> bool
    ensures { result ≡ begins 48 bytes.now }
{
    !bytes.is_empty() && bytes[0] == b'0'
}

// All four numbers stand before a position, where the one under way begins at start.
fn all_stand(field: Field, start: usize, at: usize) -> bool
    ensures { result ≡ all_stand field start at }
{
    matches!(field, Field::Monitor) && start < at
}

// The kind of what stands at a position of a line, in the number that begins at start.
#[tactic(auto, using(crate::proofs::AtFault::kind_steps), unfolding(crate::specs::Kinds::kind_at))]
pub(crate) fn kind_at(line: &[u8], field: Field, start: usize, at: usize) -> Kind
    requires { (start ≤ length line.now) × (at ≤ length line.now) }
    ensures { result ≡ kind_at line.now field start at }
{
    let all = all_stand(field, start, at);
    if line.len() <= at {
        return if all {
            Kind::NoLineFeed
        } else {
            Kind::CutShort
        };
    }
    let before = Before {
        field,
        zero: begins_zero(&line[start..]),
        nothing: at == 0,
        all,
    };
    byte_kind(line[at], &line[at..], before)
}
