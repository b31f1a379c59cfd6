// A line's past sets (docs/SPECIFICATION.md, "A line between sheets"): which are valid on a day, which aren't zero, and whether all lie on one side of zero.

#![tactic(auto)]

ghost use Rattle.std.specs.Prelude.{◌≡◌, ◌≤◌, ◌&&◌, ◌||◌, T, length};
ghost use Rattle.whole.specs.Lists.{all, above, below};
ghost use Rattle.station_rules.specs.Lines.{is_nonzero, valid_on};
ghost use Rattle.station_rules.specs.Soundness.{days_fall};

use station_rules::{PAST_DAYS, PastSet, Set};

// How many past sets are at most 14 days old.
#[tactic(auto, using(crate::proofs::ValidLaws::count_valid))]
fn valid_count(day: u32, past: &[PastSet]) -> usize
    ensures { (result ≡ length (valid_on day past.now)) × (result ≤ length past.now) }
{
    past.iter()
        .filter(|p| day.saturating_sub(PAST_DAYS) <= p.day)
        .count()
}

// The past sets that are valid on a day. They stand first, since their days never rise from newest to oldest.
#[tactic(auto, using(crate::proofs::ValidLaws::valid_part))]
pub fn valid(day: u32, past: &[PastSet]) -> &[PastSet]
    requires { T (days_fall 99999 past.now) }
    ensures { result.now ≡ valid_on day past.now }
{
    &past[..valid_count(day, past)]
}

// A set that isn't zero: its S is not 0.
pub fn is_nonzero(p: PastSet) -> bool
    ensures { result ≡ is_nonzero p }
{
    p.sum != 0
}

// A set of this S lies above zero.
fn is_above(sum: i32) -> bool
    ensures { result ≡ above sum }
{
    0 < sum
}

// Below it.
fn is_below(sum: i32) -> bool
    ensures { result ≡ below sum }
{
    sum < 0
}

// Whether a set and past sets lie on one side of zero, on neither of which a set with S = 0 lies. Of four past sets it is the rule's test of the five (`four_sides` of SideLaws).
pub fn on_one_side(set: Set, past: &[PastSet]) -> bool
    ensures { result ≡ (above set.sum && all (λ p. above p.sum) past.now || below set.sum && all (λ p. below p.sum) past.now) }
{
    is_above(set.sum) && past.iter().all(|p| is_above(p.sum))
        || is_below(set.sum) && past.iter().all(|p| is_below(p.sum))
}
