// Steps 2 and 3 of the raw unit: what the sums of every width are made of, and at k = 7 the reduction of a significand and the three series.
#![tactic(auto)]

ghost use Rattle.std.specs.Prelude.{◌≡◌, ◌*◌, ◌/◌, ◌<◌, ◌^◌};
ghost use Rattle.kinds.specs.declared.Op.TheVariants.{Reciprocal, Root, InverseRoot};
ghost use Rattle.significand.specs.Width.{k32, t32, Significand, laws32};
ghost use Rattle.significand.specs.Steps.{unit as steps_unit, factor_of, series_of};
ghost use Rattle.series.specs.Parts.{Reduced, TermsOf};

use significand::Width;

// Significands of 24 bits.
#[derive(Clone, Copy)]
pub struct Raw32;

impl Width for Raw32 {
    const K: u32 = 7;

    const T: u32 = 3;

    ghost K = { k32 };

    ghost T = { t32 };

    ghost laws = { laws32 };
}

// The sign and the magnitude of a reduction.
#[derive(Clone, Copy)]
pub struct Reduction {
    pub positive: bool,
    pub magnitude: u64,
}

// Step 2, for a significand y and its R.
pub fn reduce(y: u64, r: u64) -> Reduction
    requires { Significand k32 t32 y × (r ≡ factor_of k32 (y / 2 ^ 16)) }
    ensures { Reduced k32 t32 (y * r) result }
{
    let d = (y * r) as i64 - 2147483648;
    Reduction {
        positive: 0 <= d,
        magnitude: d.unsigned_abs() / 8,
    }
}

// The sign s, +1 or −1, chosen as the definition chooses it; `2 * i64::from(positive) - 1` would be no plainer.
pub fn unit(positive: bool) -> i64
    ensures { result ≡ steps_unit positive }
{
    if positive { 1 } else { -1 }
}

// What the three sums are made of: s, a, 2^k·a2² + 2·a2·a3 and h·a2.
#[derive(Clone, Copy)]
pub struct Terms {
    pub sign: i64,
    pub linear: i64,
    pub cross: i64,
    pub cube: i64,
}

// The digits above the lowest are t, which is 2^k·a2 + a3: one product by a2 gives both terms of the second order.
#[inline(always)]
pub fn terms_of<W: Width>(positive: bool, a: u64) -> Terms
    requires { a < 2 ^ (3 * W.K) }
    ensures { TermsOf W.K positive a result }
{
    let k = W::K;
    let t = a >> k;
    let a2 = a >> (2 * k);
    let square = product(a2, a2);
    Terms {
        sign: unit(positive),
        linear: a as i64,
        cross: product(a2, t + t % (1 << k)) as i64,
        cube: product(a2, square >> k) as i64,
    }
}

// The product of a digit with a number of two and a bit: a digit has at most 15 bits.
#[inline(always)]
fn product(a: u64, b: u64) -> u64
    requires { (a < 2 ^ 15) × (b < 2 ^ 31) }
    ensures { (result ≡ a * b) × (result < 2 ^ 46) }
{
    a * b
}

// Step 3, the series b of each operation: the printed sum, its terms gathered so that s enters once, and one floored division. Three
// functions, because docs/PROMISES.md lays each by its name beside its printed formula.
pub fn reciprocal_series(positive: bool, a: u64) -> u64
    requires { a < 2 ^ 21 }
    ensures { (result ≡ series_of k32 Reciprocal positive a) × (result < 2 ^ 29) }
{
    let t = terms_of::<Raw32>(positive, a);
    let sum = 34359738368 + t.cross - t.sign * (128 * t.linear + t.cube);
    sum as u64 / 128
}

pub fn root_series(positive: bool, a: u64) -> u64
    requires { a < 2 ^ 21 }
    ensures { (result ≡ series_of k32 Root positive a) × (result < 2 ^ 29) }
{
    let t = terms_of::<Raw32>(positive, a);
    let sum = 549755813888 - 2 * t.cross + t.sign * (1024 * t.linear + t.cube);
    sum as u64 / 2048
}

pub fn inverse_root_series(positive: bool, a: u64) -> u64
    requires { a < 2 ^ 21 }
    ensures { (result ≡ series_of k32 InverseRoot positive a) × (result < 2 ^ 29) }
{
    let t = terms_of::<Raw32>(positive, a);
    let sum = 549755813888 + 6 * t.cross - t.sign * (1024 * t.linear + 5 * t.cube);
    sum as u64 / 2048
}
