// The scale at which the floor of an operation on a significand stands for the exact result.
ghost use Rattle.std.specs.Prelude.{◌+◌, ◌^◌, ◌<◌};
ghost use Rattle.neighbour.specs.Scales.{ScalesOf};

use kinds::Op;
use pattern::format::Format;

// The scale, and the parity that makes it whole.
#[derive(Clone, Copy)]
pub struct Scales {
    pub scale: u64,
    pub parity: u64,
}

// The exponent j of an operand raises a root's scale by half of it and lowers the others'. Twice a scale is not negative, so that halving
// floors: −3 is twice −2 with parity 1. A root's parity is what is over; an inverse root's is what is added, and its halving rounds up, by
// the sum with what is added and not by `div_ceil`.
// A magnitude is counted in units of 2^-u, and a fraction has m bits: at exponent 0 the reciprocal's scale is 2u − (m + 2) + 3, and twice
// the roots' are u − 2(m + 1) + 6 and 3u − 2(m + 2) + 6. Three cases, because each is a line of the definition.
#[inline(always)]
pub fn scales_of<F: Format>(op: Op, j: u64) -> Scales
    requires { j + 2 < 2 ^ F.format.exponent_bits + F.format.fraction_bits }
    ensures { ScalesOf F.format op j result }
{
    let u = F::unit();
    let m = F::FRACTION;
    match op {
        Op::Reciprocal => Scales {
            scale: 2 * u + 1 - m - j,
            parity: 0,
        },
        Op::Root => {
            let twice = j + (u + 4 - 2 * m);
            Scales {
                scale: twice / 2,
                parity: twice % 2,
            }
        }
        Op::InverseRoot => {
            let twice = 3 * u + 2 - 2 * m - j;
            Scales {
                scale: (twice + 1) / 2,
                parity: twice % 2,
            }
        }
    }
}
