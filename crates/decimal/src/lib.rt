// Writes bytes, numbers and flags into a buffer, each writer from a position on: it gives the position behind what it wrote.
// Buffer and position stay two parameters: as a struct with methods each contract had to say besides that the struct still holds
// the same buffer, which is no plainer; and lent as its rest, the buffer would be cut at the position in each call that hands it on now. The library's write! into a slice doesn't say which bytes it wrote.

#![tactic(auto)]

ghost use Rattle.std.specs.Prelude.{◌≡◌, [], ◌∷◌, ◌+◌, ◌<◌, ◌≤◌, nat_abs, length};
ghost use Rattle.decimal.specs.Put.{Put};
ghost use Rattle.decimal.specs.Show.{show, show_signed, bit};

// The byte b.
pub fn put_byte(out: &mut [u8], at: usize, b: u8) -> usize
    requires { at < length out.old }
    ensures { Put out.old at (b ∷ []) out.new result }
{
    out[at] = b;
    at + 1
}

// n in decimal.
#[tactic(auto, using(crate::proofs::Show::show_small, crate::proofs::Show::length_step))]
pub fn put_number(out: &mut [u8], at: usize, n: u32) -> usize
    requires { at + length (show n) ≤ length out.old }
    ensures { Put out.old at (show n) out.new result }
{
    if n < 10 {
        out[at] = b'0' + n as u8;
        return at + 1;
    }
    let next = put_number(out, at, n / 10);
    out[next] = b'0' + (n % 10) as u8;
    next + 1
}

// A space, and n in decimal.
pub fn put_field(out: &mut [u8], at: usize, n: u32) -> usize
    requires { at + 1 + length (show n) ≤ length out.old }
    ensures { Put out.old at (32 ∷ show n) out.new result }
{
    let next = put_byte(out, at, b' ');
    put_number(out, next, n)
}

// A space, and 1 or 0: the flag is what is written, no switch.
pub fn put_flag(out: &mut [u8], at: usize, flag: bool) -> usize
    requires { at + 2 ≤ length out.old }
    ensures { Put out.old at (32 ∷ bit flag ∷ []) out.new result }
{
    let next = put_byte(out, at, b' ');
    put_byte(out, next, b'0' + u8::from(flag))
}

// A space, and z in decimal, with a minus sign below zero.
#[tactic(auto, using(crate::proofs::Show::width_5, crate::proofs::Signs::show_below, crate::proofs::Signs::show_above, crate::proofs::Put::put_then))]
pub fn put_signed(out: &mut [u8], at: usize, z: i32) -> usize
    requires z_bound { nat_abs z < 100000 }
    requires at_in_bounds { at + 7 ≤ length out.old }
    ensures { Put out.old at (32 ∷ show_signed z) out.new result }
{
    let n = z.unsigned_abs();
    if z < 0 {
        let sign = put_byte(out, at, b' ');
        let next = put_byte(out, sign, b'-');
        put_number(out, next, n)
    } else {
        put_field(out, at, n)
    }
}

// All of bytes.
#[tactic(auto, using(crate::proofs::Put::put_part))]
pub fn put_bytes(out: &mut [u8], at: usize, bytes: &[u8]) -> usize
    requires { at + length bytes.now ≤ length out.old }
    ensures { Put out.old at bytes.now out.new result }
{
    let end = at + bytes.len();
    out[at..end].copy_from_slice(bytes);
    end
}
