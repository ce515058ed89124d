// The tables of M at k = 15, filled into a lent slice. Each entry starts from an earlier one and is settled by the test of entries: whatever
// the start, the entry is M, so nothing is said of the starts; near ones only save steps.
#![tactic(auto)]

ghost use Rattle.std.specs.Prelude.{◌≡◌, ◌+◌, ◌^◌, ◌<◌, ◌≤◌, length, slice_index, slice_set};
ghost use Rattle.kinds.specs.Operation.{op_of};
ghost use Rattle.significand.specs.Width.{k64};
ghost use Rattle.significand.specs.Steps.{factor_of, multiplier_of};
ghost use Rattle.significand.specs.Tables.{tables, tables_length};
ghost use Rattle.significand.specs.Call.{filling_asked, slice_after};

use entries::{MOST, Multiplier};
use kinds::{Op, Refusal};

// The entries of one table, and of all four. `raw64` has these numbers too, because neither crate stands above the other.
const TABLE: usize = 32768;

const LENGTH: usize = 131072;

// 2^64: a product of two numbers of 64 bits has two words. As in `entries`, because a name for all would be a public name of a number.
const WORD: u128 = 0x1_0000_0000_0000_0000;

// The least i.
const FIRST: usize = 32768;

// √2 × 2^63.
const ROOT_OF_TWO: u64 = 0xB504_F333_F9DE_6484;

// The filling call and its one question, 15; after a "no" the slice holds what it held.
pub fn call(table: &mut [u64]) -> Result<(), Refusal>
    ensures value { result ≡ filling_asked (length table.old) }
    ensures table_after { table.new ≡ slice_after table.old }
{
    if table.len() != LENGTH {
        return Err(Refusal::Tables);
    }
    fill(table);
    Ok(())
}

fn fill(table: &mut [u64])
    requires { length table.old ≡ tables_length k64 }
    ensures { table.new ≡ tables k64 }
{
    for n in 0..LENGTH {
        put_entry(table, n);
    }
}

// The entry at n: i goes through a table, and the tables are those of the root, then of the inverse root, even and odd.
fn put_entry(table: &mut [u64], n: usize)
    requires { (n < tables_length k64) × (length table.old ≡ tables_length k64) }
    ensures { table.new ≡ slice_set table.old n (slice_index (tables k64) n) }
{
    let number = n / TABLE;
    let m = Multiplier {
        op: op_of(number / 2),
        factor: factor((FIRST + n % TABLE) as u64),
        parity: (number % 2) as u64,
    };
    let near = start(table, n, m.factor);
    table[n] = settle(m, near);
}

// R of an i. Not step 1 of the raw unit, because that takes the index from a significand, and here there is none.
fn factor(i: u64) -> u64
    requires { (2 ^ 15 ≤ i) × (i ≤ 2 ^ 16) }
    ensures { (result ≡ factor_of k64 i) × (2 ^ 15 ≤ result) × (result ≤ 2 ^ 16) }
{
    0x8000_0000 / i
}

// The first two tables are the root's. By cases and not by `Op::try_from`, because that may refuse, and here there is nothing to refuse.
fn op_of(pair: usize) -> Op
    requires { pair < 2 }
    ensures { result ≡ op_of (pair + 2) }
{
    match pair {
        0 => Op::Root,
        _ => Op::InverseRoot,
    }
}

// M, from any start.
fn settle(m: Multiplier, near: u64) -> u64
    ensures { result ≡ multiplier_of k64 m.op m.factor m.parity }
{
    let below = down(m, near.min(MOST));
    up(m, below)
}

// Down to a number that is at most M. A search, whose end is a measure: no `for` says it plainer.
fn down(m: Multiplier, from: u64) -> u64
    requires { from ≤ 2 ^ 61 }
    ensures { result ≤ multiplier_of k64 m.op m.factor m.parity }
{
    let mut w = from;
    while !m.at_most(w) {
        w -= 1;
    }
    w
}

// Up to M, a search likewise.
fn up(m: Multiplier, from: u64) -> u64
    requires { from ≤ multiplier_of k64 m.op m.factor m.parity }
    ensures { result ≡ multiplier_of k64 m.op m.factor m.parity }
{
    let mut w = from;
    while m.at_most(w + 1) {
        w += 1;
    }
    w
}

// A start for the entry at n: in the first table from the entry before, in the second from the first, in the last two from the root's.
fn start(table: &[u64], n: usize, r: u64) -> u64
    requires { n < length table.now }
{
    if n == 0 {
        return 0x1000_0000_0000_0000;
    }
    if n < TABLE {
        return newton(r, newton(r, table[n - 1]));
    }
    if n < 2 * TABLE {
        return scaled(table[n - TABLE], ROOT_OF_TWO);
    }
    if n < 3 * TABLE {
        return scaled(table[n - 2 * TABLE], r << 47);
    }
    scaled(table[n - 2 * TABLE], r << 46)
}

// x × f / 2^63. Not the raw unit's last product, because that divides by 2^60 and asks for smaller numbers.
fn scaled(x: u64, f: u64) -> u64 {
    ((x as u128 * f as u128 >> 63) % WORD) as u64
}

// One of Newton's steps toward 2^68 / √r: x − x × v / 2^73, where r × x² / 2^64 is 2^72 + v and v may be negative.
fn newton(r: u64, x: u64) -> u64 {
    let square = x as u128 * x as u128;
    let v = (square.wrapping_mul(r as u128) / WORD) as u64;
    if v < 0x8000_0000_0000_0000 {
        return x.wrapping_sub((x as u128 * v as u128 >> 73) as u64);
    }
    x.wrapping_add((x as u128 * v.wrapping_neg() as u128 >> 73) as u64)
}
