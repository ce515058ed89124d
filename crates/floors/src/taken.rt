// The significand that a rounding takes of a normal result, from a raw answer at k = 7. It is t or t + 1, and one test tells which: of the
// exact result beside m = 2t + rest, which is t, t + 1/2 or t + 1 by what the rounding leaves of the way between two neighbours, in halves.
ghost use Rattle.std.specs.Prelude.{◌≡◌, ◌+◌, ◌^◌, ◌<◌, ◌≤◌, false, if◌then◌else◌};
ghost use Rattle.kinds.specs.declared.Op.TheVariants.{Reciprocal, Root, InverseRoot};
ghost use Rattle.kinds.specs.Operation.{is_reciprocal};
ghost use Rattle.kinds.specs.Guard.{rest_of};
ghost use Rattle.significand.specs.Width.{k32, t32, Significand, Operand};
ghost use Rattle.significand.specs.Distance.{Between};
ghost use Rattle.ieee.specs.Floor.{target_of, taken_by};
ghost use Rattle.floors.specs.Taken.{TakenOf, carried_by};

use crate::{HALF, LEAST_SIGNIFICAND, WHOLE, root};
use kinds::{Mode, Op};

// The significand, and whether the exact result is another number.
#[derive(Clone, Copy)]
pub struct Taken {
    pub significand: u64,
    pub more: bool,
}

// 2 toward zero, 0 away from it, chosen as the definition chooses it; `2 * u64::from(inward)` would be no plainer.
fn rest_if(inward: bool) -> u64
    ensures { (result ≡ (if inward then 2 else 0)) × (result ≤ 2) }
{
    if inward { 2 } else { 0 }
}

// t, or the number after it; a function, because its clause says the choice as the definitions do.
fn next_if(next: bool, t: u64) -> u64
    requires { t < 2 ^ 63 }
    ensures { result ≡ (if next then t + 1 else t) }
{
    t + next as u64
}

// What a rounding leaves, in halves.
fn rest_of(mode: Mode, negative: bool) -> u64
    ensures { (result ≡ rest_of mode negative) × (result ≤ 2) }
{
    match mode {
        Mode::Nearest => 1,
        Mode::Up => rest_if(negative),
        Mode::Down => rest_if(!negative),
        Mode::TowardZero => 2,
    }
}

// The significand of each operation, whose roots are never negative, by a test of its own.
#[inline(always)]
pub fn taken_of(op: Op, mode: Mode, negative: bool, y: u64, p: u64, g: u64) -> Taken
    requires operand { Operand k32 t32 op y p × (g < 2 ^ 32) × Between op k32 t32 y p g }
    requires positive { is_reciprocal op ≡ false → negative ≡ false }
    ensures { TakenOf op y (target_of 23 op y p) (rest_of mode negative) result }
{
    match op {
        Op::Reciprocal => reciprocal_taken(mode, negative, y, g),
        Op::Root => root_taken(mode, y, p, g),
        Op::InverseRoot => inverse_root_taken(mode, y, p, g),
    }
}

// The reciprocal's. The rest is worked out first and is no const parameter, so that the roundings share the test: a copy of it for each
// took 7.6 to 8.1 ns a call where this takes 7.3 to 7.4.
fn reciprocal_taken(mode: Mode, negative: bool, y: u64, g: u64) -> Taken
    requires { Significand k32 t32 y × (g < 2 ^ 32) × Between Reciprocal k32 t32 y 0 g }
    ensures { TakenOf Reciprocal y (target_of 23 Reciprocal y 0) (rest_of mode negative) result }
{
    reciprocal_with(rest_of(mode, negative), y, g)
}

fn reciprocal_with(rest: u64, y: u64, g: u64) -> Taken
    requires rest_bound { rest ≤ 2 }
    requires significand { Significand k32 t32 y × (g < 2 ^ 32) × Between Reciprocal k32 t32 y 0 g }
    ensures { TakenOf Reciprocal y (target_of 23 Reciprocal y 0) rest result }
{
    let t = (g + 11 - 8 * rest) / 16;
    let m = 2 * t + rest;
    let next = y * m < WHOLE + rest / 2;
    Taken {
        significand: next_if(next, t),
        more: y != LEAST_SIGNIFICAND,
    }
}

// The root's, which has its floor at once, and with it whether something lies above. No root is negative.
fn root_taken(mode: Mode, y: u64, p: u64, g: u64) -> Taken
    requires { Significand k32 t32 y × (p ≤ 1) × (g < 2 ^ 32) × Between Root k32 t32 y p g }
    ensures { TakenOf Root y (target_of 23 Root y p) (rest_of mode false) result }
{
    let f = root(y, p, g);
    Taken {
        significand: root_by(mode, f.quotient, f.more),
        more: f.more,
    }
}

// Half of the floor and of what the rounding carries into it.
fn root_by(mode: Mode, q: u64, more: bool) -> u64
    requires { q < 2 ^ 63 }
    ensures { result ≡ taken_by (rest_of mode false) q more }
{
    (q + carried(mode, more)) / 2
}

fn carried(mode: Mode, more: bool) -> u64
    ensures { (result ≡ carried_by mode more) × (result ≤ 2) }
{
    match mode {
        Mode::Nearest => 1,
        Mode::Up => 1 + more as u64,
        Mode::Down => 0,
        Mode::TowardZero => 0,
    }
}

// The inverse root's. Each rounding has its own test, whose rest is a number of its code.
fn inverse_root_taken(mode: Mode, y: u64, p: u64, g: u64) -> Taken
    requires { Significand k32 t32 y × (p ≤ 1) × (g < 2 ^ 32) × Between InverseRoot k32 t32 y p g }
    ensures { TakenOf InverseRoot y (target_of 23 InverseRoot y p) (rest_of mode false) result }
{
    match mode {
        Mode::Nearest => inverse_root_with::<1>(y, p, g),
        Mode::Up => inverse_root_with::<0>(y, p, g),
        Mode::Down => inverse_root_with::<2>(y, p, g),
        Mode::TowardZero => inverse_root_with::<2>(y, p, g),
    }
}

// The target is 0 modulo 2^64, and no side is half of that away.
fn inverse_root_with<const REST: u64>(y: u64, p: u64, g: u64) -> Taken
    requires rest_bound { REST ≤ 2 }
    requires significand { Significand k32 t32 y × (p ≤ 1) × (g < 2 ^ 32) × Between InverseRoot k32 t32 y p g }
    ensures { TakenOf InverseRoot y (target_of 23 InverseRoot y p) REST result }
{
    let t = (g + 8 - 8 * REST) / 16;
    let m = 2 * t + REST;
    let over = (m * m).wrapping_mul(y);
    let next = HALF <= over.wrapping_sub(REST / 2);
    Taken {
        significand: next_if(next, t),
        more: (y != LEAST_SIGNIFICAND) | (p == 1),
    }
}
