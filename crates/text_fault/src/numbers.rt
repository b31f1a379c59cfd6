// The number that a technician should have written, read from the one in the line.

ghost use Rattle.std.specs.Prelude.{◌≤◌, IfSome};

use chart_rules::LARGEST_RESULT;

// The bytes up to the next space or the line's end.
pub(crate) fn word_at(line: &[u8], start: usize) -> &[u8] {
    let rest = line.get(start..).unwrap_or(&[]);
    let end = rest
        .iter()
        .position(|c| c.is_ascii_whitespace())
        .unwrap_or(rest.len());
    rest.get(..end).unwrap_or(rest)
}

// Digits alone, as a number; none is 0.
pub(crate) fn value_of(digits: &[u8]) -> Option<u32> {
    let mut n: u32 = 0;
    for c in digits {
        if !c.is_ascii_digit() {
            return None;
        }
        n = n.checked_mul(10)?.checked_add(u32::from(c - b'0'))?;
    }
    Some(n)
}

// A decimal of up to two places in hundredths; None for anything else, or above 100.00.
pub(crate) fn hundredths(word: &[u8]) -> Option<u32>
    ensures { IfSome result (λ n. n ≤ 10000) }
{
    let point = word.iter().position(|c| matches!(c, b'.' | b','))?;
    let (whole, behind) = (word.get(..point)?, word.get(point + 1..)?);
    let cents = match behind {
        [] if whole.is_empty() => return None,
        [] => 0,
        [_] => value_of(behind)?.checked_mul(10)?,
        [_, _] => value_of(behind)?,
        _ => return None,
    };
    let n = value_of(whole)?.checked_mul(100)?.checked_add(cents)?;
    if n <= LARGEST_RESULT { Some(n) } else { None }
}
