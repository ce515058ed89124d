// The square root of a whole number, rounded up: the raw root, rounded, is a start, and one test of squares settles it.
#![tactic(auto)]

ghost use Rattle.std.specs.Prelude.{◌≡◌, ◌^◌, ◌≤◌, ◌<◌};
ghost use Rattle.kinds.specs.declared.Op.TheVariants.{Root};
ghost use Rattle.significand.specs.Width.{k32, t32, Significand};
ghost use Rattle.significand.specs.Steps.{raw_of};
ghost use Rattle.ceiling.specs.Root.{ceiling_root};

// The raw root, as a function of its own: at its nine places the lift then stays inline.
#[inline(never)]
fn raw_root(y: u32, p: u32) -> u32
    requires { Significand k32 t32 y × (p ≤ 1) }
    ensures { result ≡ raw_of k32 t32 Root y p }
{
    raw::root(y, p)
}

// The root by the leading bits: the exponent's parity goes with the significand, and its half says a shift. The raw answer over
// 2^(28 − exponent / 2) is less than half of one away from the root, so that c, that quotient rounded, is the root rounded up or one
// below it.
pub fn ceiling_root(n: u64) -> u64
    requires { (0 < n) × (n < 2 ^ 44) }
    ensures { result ≡ ceiling_root n }
{
    let leading = leading::leading_of(n);
    let g = raw_root(leading.significand, leading.exponent % 2);
    let c = (((g as u64) >> (27 - leading.exponent / 2)) + 1) / 2;
    if c * c < n { c + 1 } else { c }
}
