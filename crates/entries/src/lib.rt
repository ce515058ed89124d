// The test of a table's entry at k = 15: whether a number is M, or at most M, by multiplications. At most M are the numbers whose half below,
// (2w − 1) / 2, is under the exact M.
#![tactic(auto)]

ghost use Rattle.std.specs.Prelude.{◌≡◌, ◌+◌, ◌*◌, ◌-◌, ◌≤◌, ◌<◌, ◌^◌, ltb, leb, eqb};
ghost use Rattle.significand.specs.Width.{k64};
ghost use Rattle.significand.specs.Steps.{multiplier_of};

use kinds::Op;

// No M is above 2^61.
pub const MOST: u64 = 0x2000_0000_0000_0000;

// 2^64: a product of two numbers of 64 bits has two words.
const WORD: u128 = 0x1_0000_0000_0000_0000;

// What an entry has to be: the M of an operation, for R and a parity.
#[derive(Clone, Copy)]
pub struct Multiplier {
    pub op: Op,
    pub factor: u64,
    pub parity: u64,
    ghost range: { (2 ^ 15 ≤ factor) × (factor ≤ 2 ^ 16) × (parity ≤ 1) },
}

impl Multiplier {
    // Whether m is M.
    #[inline(always)]
    pub fn holds(self, m: u64) -> bool
        ensures { result ≡ eqb m (multiplier_of k64 self.op self.factor self.parity) }
    {
        if MOST < m {
            return false;
        }
        let reached = self.at_most(m);
        let passed = self.at_most(m + 1);
        reached & !passed
    }

    // Whether w is at most M, of each operation by a test of its own.
    #[inline(always)]
    pub fn at_most(self, w: u64) -> bool
        requires { w ≤ 2 ^ 62 }
        ensures { result ≡ leb w (multiplier_of k64 self.op self.factor self.parity) }
    {
        match self.op {
            Op::Reciprocal => w <= self.factor << 44,
            Op::Root => self.root_passes(half_below(w)),
            Op::InverseRoot => self.inverse_root_passes(half_below(w)),
        }
    }

    // The limit is a multiple of 2^96, so what u² × R has above its lower 96 bits tells.
    #[tactic(auto, using(crate::proofs::Words::root_passes_is))]
    #[inline(always)]
    fn root_passes(self, u: u64) -> bool
        ensures { result ≡ ltb (u * u * self.factor) (2 ^ (138 + self.parity)) }
    {
        let square = u as u128 * u as u128;
        let low = square % WORD * self.factor as u128;
        let high = square / WORD * self.factor as u128 + low / WORD;
        ((high >> 32) as u64) < 0x400_0000_0000 << self.parity
    }

    // Divided by 2^(16 + p), the limit is a multiple of 2^64, so the upper word of u² tells.
    #[tactic(auto, using(crate::proofs::Words::inverse_root_passes_is))]
    #[inline(always)]
    fn inverse_root_passes(self, u: u64) -> bool
        ensures { result ≡ ltb (u * u * 2 ^ (16 + self.parity)) (self.factor * 2 ^ 122) }
    {
        ((u as u128 * u as u128 / WORD) as u64) < self.factor << (42 - self.parity)
    }
}

// Twice the half below w; 0 has none. By cases as this is said; `(2 * w).saturating_sub(1)` would be no plainer.
#[inline(always)]
fn half_below(w: u64) -> u64
    requires { w ≤ 2 ^ 62 }
    ensures { result ≡ 2 * w - 1 }
{
    if w == 0 { 0 } else { 2 * w - 1 }
}
