// The raw answer to a positive finite operand, which its result is worked out from.
ghost use Rattle.std.specs.Prelude.{◌+◌, ◌^◌, ◌≤◌, ◌<◌};
ghost use Rattle.results.specs.Estimate.{EstimateOf};

use kinds::Op;
use neighbour::scales::{Scales, scales_of};
use pattern::format::Binary32;
use pattern::operand::Scaled;

// The raw answer, and the scale of the result.
#[derive(Clone, Copy)]
pub struct Estimate {
    pub answer: u64,
    pub scales: Scales,
}

#[inline(always)]
pub fn estimate_of(op: Op, x: Scaled) -> Estimate
    requires { (2 ^ 23 ≤ x.significand) × (x.significand < 2 ^ 24) × (x.exponent + 2 < 2 ^ 8 + 23) }
    ensures { EstimateOf op x result }
{
    let scales = scales_of::<Binary32>(op, x.exponent);
    let answer = raw::answer(op, x.significand as u32, scales.parity as u8) as u64;
    Estimate { answer, scales }
}
