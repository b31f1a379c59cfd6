// Sets of three numbers each in a part of a caller's places, with how many are held in front: a line's newest sets, its non-zero ones, a chart's sets.

#![tactic(auto)]

ghost use Rattle.std.specs.Prelude.{◌≡◌, ◌+◌, ◌*◌, ◌≤◌, length};
ghost use Rattle.whole.specs.Places.{joined_sets};

// The places of a set.
pub const SET_PLACES: usize = 3;

// A set joins in front: one more is held, and `most` at most; the sets after it move on by one, and the last goes.
pub fn join(part: &mut [i32], most: u32, set: [i32; SET_PLACES])
    requires { (length part.old ≡ 1 + 3 * most) × ((1 ≤ most) × (most ≤ 4)) }
    ensures { part.new ≡ joined_sets most part.old set }
{
    let held = part[0].cast_unsigned().min(most - 1) + 1;
    let kept = part.len() - SET_PLACES;
    part.copy_within(1..kept, 1 + SET_PLACES);
    part[1..=SET_PLACES].copy_from_slice(&set);
    part[0] = held.cast_signed();
}
