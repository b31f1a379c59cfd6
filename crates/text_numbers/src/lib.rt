// Decimal numbers of a chart text, read: a lone 0, or up to five digits without a leading zero.
// Text and position stay two parameters, as in the rules: they count positions in the whole text, which the rest as a slice would lose, and a cursor's methods had to promise besides that it keeps its text.

#![tactic(auto)]

ghost use Rattle.std.specs.Prelude.{◌≡◌, ◌<◌, ◌≤◌, drop, length};
ghost use Rattle.chart_rules.specs.TextLines.{digits, number_at};

// The least number of five digits, behind which a sixth is bad.
const FIVE_DIGITS: u32 = 10000;

// The digits from position at on, after those that made first. An index, since the position behind them is answered.
#[tactic(auto, using(chart_rules::proofs::Numbers::digits_steps))]
fn digits_at(text: &[u8], at: usize, first: u32) -> Option<(u32, usize)>
    requires { (first < 100000) × (at ≤ length text.now) }
    ensures { result ≡ digits first at (drop at text.now) }
{
    let mut n = first;
    for i in at..text.len() {
        let c = text[i];
        if !c.is_ascii_digit() {
            return Some((n, i));
        }
        if n >= FIVE_DIGITS {
            return None;
        }
        n = 10 * n + u32::from(c - b'0');
    }
    Some((n, text.len()))
}

// The number at position at.
#[tactic(auto, using(chart_rules::proofs::Numbers::number_steps))]
pub fn number_at(text: &[u8], at: usize) -> Option<(u32, usize)>
    ensures { result ≡ number_at text.now at }
{
    let c = *text.get(at)?;
    if c == b'0' {
        return Some((0, at + 1));
    }
    if c.is_ascii_digit() {
        digits_at(text, at + 1, u32::from(c - b'0'))
    } else {
        None
    }
}
