// An offset's magnitude, a component of the normal times the radius over the normal's length, as a whole number: an inverse root that
// is a little too small gives a start, one test of squares decides.
#![tactic(auto)]

ghost use Rattle.std.specs.Prelude.{◌≡◌, ◌*◌, ◌^◌, ◌<◌, ◌≤◌};
ghost use Rattle.kinds.specs.Guard.{rest_of};
ghost use Rattle.cutter.specs.Offset.{rounded_over};
ghost use Rattle.offset.specs.Inverse.{length_most, ScaleOf, ComponentRange, Started};
ghost use Rattle.offset.specs.Settled.{settled_by, sign_of};

use kinds::Mode;

// A component of the normal by its sign and its magnitude, with the square of that.
#[derive(Clone, Copy)]
pub struct Component {
    pub negative: bool,
    pub magnitude: u64,
    pub square: u64,
    ghost short: { magnitude ≤ length_most },
    ghost squared: { square ≡ magnitude * magnitude },
}

// The radius over √q from below, times 2^46, for a squared length q by its leading bits: the exponent's parity goes with the
// significand, and its half is a shift. The raw answer g is lowered by 23: by 7, its distance, and by 16, which the unit of the
// significand makes at most.
pub fn scale_of(q: u64, radius: u64) -> u64
    requires { (0 < q) × (q < 2 ^ 35) × (radius ≤ length_most) }
    ensures { ScaleOf q radius result }
{
    let leading = leading::leading_of(q);
    let g = raw::inverse_root(leading.significand, leading.exponent % 2);
    let low = (g as u64) - 23;
    (low * (radius << 18)) >> (leading.exponent / 2)
}

// The magnitude of an offset: component × radius over √q, rounded for the component's sign.
pub fn rounded_over(mode: Mode, component: Component, radius: u64, q: u64, scale: u64) -> u64
    requires { ComponentRange component.square radius q × ScaleOf q radius scale }
    ensures { (result ≡ rounded_over (mode) component.negative (component.magnitude * radius) q) × (result ≤ radius) }
{
    let start = (component.magnitude * scale) >> 45;
    settled_by(mode, component.negative, start, component.square, radius, q)
}

// The magnitude from a start, each rounding by its own rest: what it leaves of the way between two neighbours, in halves.
fn settled_by(mode: Mode, negative: bool, start: u64, square: u64, radius: u64, q: u64) -> u64
    requires { (radius ≤ length_most) × Started start (square * (radius * radius)) q }
    ensures { result ≡ settled_by (rest_of (mode) negative) start (square * (radius * radius)) q }
{
    match mode {
        Mode::Nearest => settled(1, start, square, radius, q),
        Mode::Up => settled_whole(negative as u64, start, square, radius, q),
        Mode::Down => settled_whole((!negative) as u64, start, square, radius, q),
        Mode::TowardZero => settled_whole(1, start, square, radius, q),
    }
}

// From a start that is 2n over √q, floored, or one below it, n² being square × radius²: t is the magnitude or one below it, and one
// test decides. Where m²·q is 4·n² exactly, t + 1 is taken toward zero, and to the nearest where t + 1 is even. The two numbers differ
// by less than 2^63, so that their lower words are enough.
fn settled(rest: u64, start: u64, square: u64, radius: u64, q: u64) -> u64
    requires { (rest ≤ 2) × (radius ≤ length_most) × Started start (square * (radius * radius)) q }
    ensures { result ≡ settled_by rest start (square * (radius * radius)) q }
{
    let t = (start + (2 - rest) / 2) / 2;
    let m = 2 * t + rest;
    let limit = square
        .wrapping_mul(4 * (radius * radius))
        .wrapping_add((rest + t % 2) / 2);
    t + sign_of((m * m).wrapping_mul(q), limit)
}

// The same where the rest is two halves, toward zero, or none, away from it: a quarter of both numbers is enough, and takes fewer
// steps than one body for every rest.
fn settled_whole(inward: u64, start: u64, square: u64, radius: u64, q: u64) -> u64
    requires { (inward ≤ 1) × (radius ≤ length_most) × Started start (square * (radius * radius)) q }
    ensures { result ≡ settled_by (2 * inward) start (square * (radius * radius)) q }
{
    let t = (start + 1 - inward) / 2;
    let u = t + inward;
    let limit = square.wrapping_mul(radius * radius).wrapping_add(inward);
    t + sign_of((u * u).wrapping_mul(q), limit)
}

// The sign of a less b, of which the lower words are given: 1 where the difference is negative, 0 where it is not.
fn sign_of(a: u64, b: u64) -> u64
    ensures { (result ≡ sign_of a b) × (result ≤ 1) }
{
    a.wrapping_sub(b) >> 63
}
