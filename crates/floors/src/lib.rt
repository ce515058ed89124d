// The floor of an exact result with one guard bit, from a raw answer at k = 7. Its distances leave two or three numbers, and how many of
// them have a side above the target is told by one remainder, and by the remainder and one step.
#![tactic(auto)]

pub mod taken;

ghost use Rattle.std.specs.Prelude.{◌≡◌, ◌^◌, ◌<◌, ◌≤◌, not, ◌&&◌, ◌==◌, nat_lt};
ghost use Rattle.kinds.specs.declared.Op.TheVariants.{Reciprocal, Root, InverseRoot};
ghost use Rattle.significand.specs.Width.{k32, t32, Significand, Operand};
ghost use Rattle.significand.specs.Distance.{Between};
ghost use Rattle.ieee.specs.Floor.{target_of, Floored};

use kinds::Op;

// A floor, and whether something lies above it.
#[derive(Clone, Copy)]
pub struct Floor {
    pub quotient: u64,
    pub more: bool,
}

// The significand of a power of two.
const LEAST_SIGNIFICAND: u64 = 0x80_0000;

// 2^48, the reciprocal's target.
const WHOLE: u64 = 0x1_0000_0000_0000;

// What is above the target, modulo 2^64, is below the half of that.
const HALF: u64 = 0x8000_0000_0000_0000;

// The floor of each operation's target, by a test of its own. y, p and g are plain numbers with their facts in clauses, here and in `taken`,
// because each test reads them once: a type of the three would be made for one call.
pub fn floor_of(op: Op, y: u64, p: u64, g: u64) -> Floor
    requires { Operand k32 t32 op y p × (g < 2 ^ 32) × Between op k32 t32 y p g }
    ensures { Floored op y (target_of 23 op y p) result.quotient result.more }
{
    match op {
        Op::Reciprocal => reciprocal(y, g),
        Op::Root => root(y, p, g),
        Op::InverseRoot => inverse_root(y, p, g),
    }
}

// 2^48 / y: the number tried, the one before or the next.
fn reciprocal(y: u64, g: u64) -> Floor
    requires { Significand k32 t32 y × (g < 2 ^ 32) × Between Reciprocal k32 t32 y 0 g }
    ensures { Floored Reciprocal y (target_of 23 Reciprocal y 0) result.quotient result.more }
{
    let q = (g + 3) / 8;
    let side = y * q;
    let above = (WHOLE < side) as u64;
    let next_above = (WHOLE < side + y) as u64;
    Floor {
        quotient: q + 1 - above - next_above,
        more: y != LEAST_SIGNIFICAND,
    }
}

// The root of y × 2^(25 + p): the number tried or the one before.
fn root(y: u64, p: u64, g: u64) -> Floor
    requires { Significand k32 t32 y × (p ≤ 1) × (g < 2 ^ 32) × Between Root k32 t32 y p g }
    ensures { Floored Root y (target_of 23 Root y p) result.quotient result.more }
{
    let q = (g + 7) / 16;
    let target = y << (25 + p);
    let side = q * q;
    let above = (target < side) as u64;
    Floor {
        quotient: q - above,
        more: side != target,
    }
}

// The root of 2^(73 − p) / y: the number tried, the one before or the next. The target is 0 modulo 2^64, and no side is half of that away.
fn inverse_root(y: u64, p: u64, g: u64) -> Floor
    requires { Significand k32 t32 y × (p ≤ 1) × (g < 2 ^ 32) × Between InverseRoot k32 t32 y p g }
    ensures { Floored InverseRoot y (target_of 23 InverseRoot y p) result.quotient result.more }
{
    let q = (g + 1) / 8;
    let side = (q * q).wrapping_mul(y);
    let next = side.wrapping_add((2 * q + 1) * y);
    let above = is_above(side) as u64;
    let next_above = is_above(next) as u64;
    Floor {
        quotient: q + 1 - above - next_above,
        more: (y != LEAST_SIGNIFICAND) | (p == 1),
    }
}

// Whether a difference modulo 2^64, read as a signed number, is positive.
fn is_above(difference: u64) -> bool
    ensures { result ≡ not (difference == 0) && nat_lt difference 9223372036854775808 }
{
    (difference != 0) & (difference < HALF)
}
