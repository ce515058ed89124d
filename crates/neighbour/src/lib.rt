// From a floor with a guard bit at its scale to the pattern below the exact result.
#![tactic(auto)]

pub mod scales;

ghost use Rattle.std.specs.Prelude.{◌≡◌, suc, ◌-◌, ◌^◌, ◌≤◌, ◌<◌};
ghost use Rattle.neighbour.specs.Neighbour.{neighbour_of};

use pattern::format::Format;

// The finite pattern below an exact result. The midpoint to the next is reached where `half` is true, and something lies above what
// is reached where `more` is true. `beyond` says that the exact result is infinity's number, 2^128 or 2^1024, or more.
#[derive(Clone, Copy)]
pub struct Neighbour {
    pub pattern: u64,
    pub half: bool,
    pub more: bool,
    pub beyond: bool,
}

// The floor q at the scale k stands for q × 2^(k − 3) units. Below k = 2 the result is subnormal and loses 2 − k bits. Where q is the
// largest, a power of two, the carry into the exponent comes out right by itself. The floor comes as two numbers, because its type belongs
// to `floors`, which stands beside this crate.
#[inline(always)]
pub fn lower<F: Format>(q: u64, more: bool, k: u64) -> Neighbour
    requires { (q ≤ 2 ^ suc (suc F.format.fraction_bits)) × (k < 2 ^ suc F.format.exponent_bits) }
    ensures { result ≡ neighbour_of F.format q more k }
{
    let normal = F::least_normal();
    let infinity = F::infinity();
    let lost = 2u64.saturating_sub(k);
    let kept = q >> lost;
    let pattern = k.saturating_sub(2) * normal + (kept >> 1);
    let beyond = infinity <= pattern;
    Neighbour {
        pattern: pattern.min(infinity - 1),
        half: (kept % 2 == 1) | beyond,
        more: more | ((kept << lost) != q) | beyond,
        beyond,
    }
}
