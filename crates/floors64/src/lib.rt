// The floor of an exact result with one guard bit, from a raw answer at k = 15. Twice the distance is less than one of the floor's steps, so
// that the floor is the number tried or the one before; the remainder of the number tried decides. At k = 7 (`floors`) another number is
// tried, and a step beyond it: one function for both widths would be two bodies behind a choice, no plainer.
#![tactic(auto)]

ghost use Rattle.std.specs.Prelude.{◌≡◌, ◌<◌, ◌≤◌};
ghost use Rattle.kinds.specs.declared.Op.TheVariants.{Reciprocal, Root, InverseRoot};
ghost use Rattle.significand.specs.Width.{k64, t64, Significand, Operand};
ghost use Rattle.significand.specs.Distance.{Near, bound_of};
ghost use Rattle.ieee.specs.Floor.{target_of, Floored};
ghost use Rattle.floors64.specs.Settled.{settled_of};

use floors::Floor;
use kinds::Op;

// The floor of each operation's target, by a test of its own; y, p and g are plain numbers, as in `floors` and for the same reason.
pub fn floor_of(op: Op, y: u64, p: u64, g: u64) -> Floor
    requires { Operand k64 t64 op y p × Near op k64 t64 y p (bound_of op) g }
    ensures { Floored op y (target_of 52 op y p) result.quotient result.more }
{
    match op {
        Op::Reciprocal => reciprocal(y, g),
        Op::Root => root(y, p, g),
        Op::InverseRoot => inverse_root(y, p, g),
    }
}

// What a number's side is above the target, modulo 2^64 or 2^128, is below the half of that where the number is too large.
const HALF: u64 = 0x8000_0000_0000_0000;

const WIDE_HALF: u128 = 0x8000_0000_0000_0000_0000_0000_0000_0000;

// The number tried: `apart` says that its side is not the target, `above` that then it is above it.
fn settled(q: u64, apart: bool, above: bool) -> Floor
    requires { 0 < q }
    ensures { result ≡ settled_of q apart above }
{
    if apart & above {
        return Floor {
            quotient: q - 1,
            more: true,
        };
    }
    Floor {
        quotient: q,
        more: apart,
    }
}

// 2^106 / y.
fn reciprocal(y: u64, g: u64) -> Floor
    requires { Significand k64 t64 y × Near Reciprocal k64 t64 y 0 (bound_of Reciprocal) g }
    ensures { Floored Reciprocal y (target_of 52 Reciprocal y 0) result.quotient result.more }
{
    let q = (g + 12) / 64;
    let over = q.wrapping_mul(y);
    settled(q, over != 0, over < HALF)
}

// The root of y × 2^(54 + p).
fn root(y: u64, p: u64, g: u64) -> Floor
    requires { Significand k64 t64 y × (p ≤ 1) × Near Root k64 t64 y p (bound_of Root) g }
    ensures { Floored Root y (target_of 52 Root y p) result.quotient result.more }
{
    let q = (g + 7) / 128;
    let over = q.wrapping_mul(q).wrapping_sub(y << (54 + p));
    settled(q, over != 0, over < HALF)
}

// The root of 2^(160 − p) / y.
fn inverse_root(y: u64, p: u64, g: u64) -> Floor
    requires { Significand k64 t64 y × (p ≤ 1) × Near InverseRoot k64 t64 y p (bound_of InverseRoot) g }
    ensures { Floored InverseRoot y (target_of 52 InverseRoot y p) result.quotient result.more }
{
    let q = (g + 7) / 64;
    let over = (q as u128 * q as u128).wrapping_mul(y as u128);
    settled(q, over != 0, over < WIDE_HALF)
}
