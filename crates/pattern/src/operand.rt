// A finite operand as a significand and a power of two.
ghost use Rattle.std.specs.Prelude.{◌≡◌, ◌+◌, ◌-◌, ◌<◌};
ghost use Rattle.ieee.specs.Format.{magnitude_of};
ghost use Rattle.pattern.specs.Parts.{FieldsOf};
ghost use Rattle.pattern.specs.Operand.{Ordinary, Scaling};

use crate::format::Format;
use crate::parts::Parts;

// A magnitude, counted in units of 2^-149 or 2^-1074: times 2^23 or 2^52 it is significand × 2^exponent, and the significand has 24 or
// 53 bits.
#[derive(Clone, Copy)]
pub struct Scaled {
    pub significand: u64,
    pub exponent: u64,
}

// A subnormal operand is its own magnitude, whose highest bit is brought to the place of the leading one; a normal one has that bit, which
// the pattern leaves out. The place of the highest bit is told by the zeros in front of it, and not by `ilog2`, because the laws of leading
// bits are about those.
pub fn scale<F: Format>(x: Parts) -> Scaled
    requires { Ordinary F.format x.unsigned × FieldsOf F.format x }
    ensures { Scaling F.format (magnitude_of F.format x.unsigned) result }
{
    if x.exponent == 0 {
        let exponent = 63 - x.fraction.leading_zeros() as u64;
        return Scaled {
            significand: x.fraction << (F::FRACTION - exponent),
            exponent,
        };
    }
    scale_normal::<F>(x)
}

// The same, of a normal operand.
#[inline(always)]
pub fn scale_normal<F: Format>(x: Parts) -> Scaled
    requires ordinary { Ordinary F.format x.unsigned × FieldsOf F.format x }
    requires exponent_nonzero { 0 < x.exponent }
    ensures { Scaling F.format (magnitude_of F.format x.unsigned) result × (result.exponent ≡ x.exponent + F.format.fraction_bits - 1) }
{
    Scaled {
        significand: F::least_normal() + x.fraction,
        exponent: x.exponent + F::FRACTION - 1,
    }
}
