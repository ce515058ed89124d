// Steps 1 to 3 and 5 of the raw unit at k = 15. The printed sums have up to 80 bits; here each is worked out in two parts, of one word.
ghost use Rattle.std.specs.Prelude.{◌≡◌, ◌*◌, ◌/◌, ◌≤◌, ◌<◌, ◌^◌};
ghost use Rattle.kinds.specs.declared.Op.TheVariants.{Reciprocal, Root, InverseRoot};
ghost use Rattle.significand.specs.Width.{k64, t64, Significand};
ghost use Rattle.significand.specs.Steps.{factor_of, series_of};
ghost use Rattle.series.specs.Parts.{Reduced};

use crate::Raw64;
use series::{Reduction, terms_of};

// 2^37: an index counts its multiples in a significand.
const INDEX_UNIT: u64 = 0x20_0000_0000;

// 2^31, which R is over the index.
const FACTOR_UNIT: u64 = 0x8000_0000;

// Step 1: R by its rule, a division.
pub fn factor(y: u64) -> u64
    requires { Significand k64 t64 y }
    ensures { (result ≡ factor_of k64 (y / 2 ^ 37)) × (32768 ≤ result) × (result ≤ 65536) }
{
    FACTOR_UNIT / (y / INDEX_UNIT)
}

// Step 2: y × R − 2^68 is the lower 37 bits of y times R, less 2^37 times what R leaves of 2^31.
pub fn reduce(y: u64, r: u64) -> Reduction
    requires { Significand k64 t64 y × (r ≡ factor_of k64 (y / 2 ^ 37)) }
    ensures { Reduced k64 t64 (y * r) result }
{
    let up = y % INDEX_UNIT * r;
    let down = (FACTOR_UNIT - y / INDEX_UNIT * r) * INDEX_UNIT;
    let d = up as i64 - down as i64;
    Reduction {
        positive: 0 <= d,
        magnitude: d.unsigned_abs() / 256,
    }
}

// Step 3, the series b of each operation: the first terms of its sum, and the terms of the digits, each over what divides the sum.
pub fn reciprocal_series(positive: bool, a: u64) -> u64
    requires { a < 2 ^ 45 }
    ensures { (result ≡ series_of k64 Reciprocal positive a) × (result < 2 ^ 61) }
{
    let t = terms_of::<Raw64>(positive, a);
    let whole = 0x1000_0000_0000_0000 - t.sign * t.linear;
    let rest = t.cross - t.sign * t.cube;
    whole as u64 + rest as u64 / 32768
}

// What the root takes away is divided rounding up: by a sum, because `div_ceil` would look at the remainder besides.
pub fn root_series(positive: bool, a: u64) -> u64
    requires { a < 2 ^ 45 }
    ensures { (result ≡ series_of k64 Root positive a) × (result < 2 ^ 61) }
{
    let t = terms_of::<Raw64>(positive, a);
    let whole = 0x2000_0000_0000_0000 + t.sign * t.linear;
    let rest = 2 * t.cross - t.sign * t.cube;
    (whole as u64 - (rest as u64 + 262143) / 262144) / 2
}

pub fn inverse_root_series(positive: bool, a: u64) -> u64
    requires { a < 2 ^ 45 }
    ensures { (result ≡ series_of k64 InverseRoot positive a) × (result < 2 ^ 61) }
{
    let t = terms_of::<Raw64>(positive, a);
    let whole = 0x2000_0000_0000_0000 - t.sign * t.linear;
    let rest = 6 * t.cross - 5 * (t.sign * t.cube);
    (whole as u64 + rest as u64 / 262144) / 2
}

// Step 5: M × b over 2^60, floored.
pub fn scaled(m: u64, b: u64) -> u64
    requires { (m ≤ 2 ^ 61) × (b < 2 ^ 61) }
    ensures { result ≡ m * b / 2 ^ 60 }
{
    ((m as u128 * b as u128) >> 60) as u64
}
