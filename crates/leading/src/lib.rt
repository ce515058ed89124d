// The leading bits of a whole number: a significand as the raw unit takes it, and the power of two that goes with it.
#![tactic(auto)]

ghost use Rattle.std.specs.Prelude.{◌<◌};
ghost use Rattle.leading.specs.Leading.{LeadingOf};

// The 24 highest bits, and the place of the highest, counted from 0.
#[derive(Clone, Copy)]
pub struct Leading {
    pub significand: u32,
    pub exponent: u32,
}

// The highest bit is brought to the top of 64 bits, of which 24 are kept, so that the significand is at most one unit too small; zeros
// fill up a shorter number.
pub fn leading_of(n: u64) -> Leading
    requires { 0 < n }
    ensures { LeadingOf n result.significand result.exponent }
{
    let zeros = n.leading_zeros();
    let exponent = 63 - zeros;
    let significand = ((n << zeros) >> 40) as u32;
    Leading {
        significand,
        exponent,
    }
}
