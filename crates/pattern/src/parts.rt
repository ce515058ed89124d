// A pattern taken apart, by shifts and masks.
ghost use Rattle.std.specs.Prelude.{◌*◌, ◌<◌};
ghost use Rattle.ieee.specs.Format.{sign_bit};
ghost use Rattle.pattern.specs.Parts.{PartsOf};

use crate::format::Format;

// The sign, 0 or 1, the exponent and the fraction; and the pattern without its sign. The sign is a number, because it is taken from the
// pattern by a shift and put back by one. What holds of the parts stands in clauses, because it is said for a format: the parts have none.
#[derive(Clone, Copy)]
pub struct Parts {
    pub sign: u64,
    pub exponent: u64,
    pub fraction: u64,
    pub unsigned: u64,
}

#[inline(always)]
pub fn fields<F: Format>(bits: u64) -> Parts
    requires { bits < 2 * sign_bit F.format }
    ensures { PartsOf F.format bits result }
{
    let unsigned = bits & (F::sign_bit() - 1);
    Parts {
        sign: bits >> F::PLACE,
        exponent: unsigned >> F::FRACTION,
        fraction: bits & (F::least_normal() - 1),
        unsigned,
    }
}
