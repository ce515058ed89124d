// The raw unit at k = 15: as at k = 7, with R by division and with M from tables that the caller lends, whose entry is tested before it
// is used. An answer g stands for g / 2^60.
#![tactic(auto)]

mod sums;

ghost use Rattle.std.specs.Prelude.{◌≡◌, ◌/◌, ◌≤◌, ◌<◌, ◌^◌, false, T, length, get_or};
ghost use Rattle.kinds.specs.declared.Op.TheVariants.{Reciprocal};
ghost use Rattle.kinds.specs.Operation.{is_reciprocal};
ghost use Rattle.significand.specs.Width.{k64, t64, Significand, Operand, laws64};
ghost use Rattle.significand.specs.Steps.{series_of, raw_of};
ghost use Rattle.significand.specs.Tables.{tables_length, tables_before, entry_place};
ghost use Rattle.significand.specs.Call.{is_lent, entry_asked, raw64_asked};
ghost use Rattle.raw64.specs.Given.{IsLent, entry_given};

use entries::Multiplier;
use kinds::{Op, Refusal};
use raw::{Steps, answered, is_parity, is_significand};
use series::Reduction;
use significand::Width;
use sums::{factor, inverse_root_series, reciprocal_series, reduce, root_series, scaled};
use tables::Row;

// A table has an entry for each i, of 16 bits; there are four.
const ENTRIES: usize = 32768;

pub const TABLES: usize = 4 * ENTRIES;

// The raw call: the questions that ask for numbers alone first, 3, 4 and 15; then the work, which asks the last.
#[inline(always)]
pub fn call(op: Op, significand: u64, parity: u8, table: &[u64]) -> Result<u64, Refusal>
    ensures { result ≡ raw64_asked op significand parity table.now }
{
    if !is_significand::<Raw64>(significand) {
        return Err(Refusal::Significand);
    }
    if !is_parity(op, parity) {
        return Err(Refusal::Parity);
    }
    if !is_lent(op, table.len()) {
        return Err(Refusal::Tables);
    }
    answer(op, significand, parity as u64, table)
}

// Question 15; the reciprocal looks at no slice.
pub fn is_lent(op: Op, entries: usize) -> bool
    ensures { result ≡ is_lent k64 op entries }
{
    op.is_reciprocal() | (entries == TABLES)
}

// Question 16 and the answer of an operation; the reciprocal has a text of its own, without the test of an entry. That the tables are lent
// stands in clauses and not in a type, because it depends on the operation: the reciprocal takes any slice.
#[inline(always)]
pub fn answer(op: Op, y: u64, p: u64, table: &[u64]) -> Result<u64, Refusal>
    requires { Operand k64 t64 op y p × (T (is_lent k64 op (length table.now))) }
    ensures { result ≡ entry_asked k64 t64 op y p table.now }
{
    if op.is_reciprocal() {
        return answered::<Raw64>(Op::Reciprocal, y, p, table);
    }
    answered::<Raw64>(op, y, p, table)
}

// Significands of 53 bits.
#[derive(Clone, Copy)]
pub struct Raw64;

impl Width for Raw64 {
    const K: u32 = 15;

    const T: u32 = 8;

    ghost K = { k64 };

    ghost T = { t64 };

    ghost laws = { laws64 };
}

impl Steps for Raw64 {
    type Missing = Refusal;

    ghost IsReady = { IsLent };

    ghost given = { entry_given };

    // R by division, and M from the lent tables, once it is tested; of the reciprocal M is R × 2^44.
    #[inline(always)]
    fn row(op: Op, y: u64, p: u64, table: &[u64]) -> Result<Row, Refusal> {
        let r = factor(y);
        if op.is_reciprocal() {
            return Ok(Row(r, r * 0x1000_0000_0000));
        }
        let m = entry(op, y, p, table);
        let sought = Multiplier {
            op,
            factor: r,
            parity: p,
        };
        if !sought.holds(m) {
            return Err(Refusal::Entry);
        }
        Ok(Row(r, m))
    }

    #[inline(always)]
    fn reduced(y: u64, r: u64) -> Reduction {
        reduce(y, r)
    }

    // As at k = 7, over the sums of this width.
    #[inline(always)]
    fn series(op: Op, d: Reduction) -> u64 {
        match op {
            Op::Reciprocal => reciprocal_series(d.positive, d.magnitude),
            Op::Root => root_series(d.positive, d.magnitude),
            Op::InverseRoot => inverse_root_series(d.positive, d.magnitude),
        }
    }

    #[inline(always)]
    fn scaled(m: u64, b: u64) -> u64 {
        scaled(m, b)
    }
}

// The entry that an operand uses.
fn entry(op: Op, y: u64, p: u64, table: &[u64]) -> u64
    requires { Significand k64 t64 y × (p ≤ 1) × (length table.now ≡ tables_length k64) }
    ensures { result ≡ get_or table.now (entry_place k64 op p (y / 2 ^ 37)) 0 }
{
    table[place_of(op, y, p)]
}

// Where it stands: root p 0, root p 1, inverse root p 0, inverse root p 1, in each i from 32,768 up. Worked out in the whole slice, and not
// in four, because C lends one slice and a call reads one entry.
fn place_of(op: Op, y: u64, p: u64) -> usize
    requires { Significand k64 t64 y × (p ≤ 1) }
    ensures { (result ≡ entry_place k64 op p (y / 2 ^ 37)) × (result < tables_length k64) }
{
    (tables_before(op) + p as usize) * ENTRIES + ((y >> 37) as usize - ENTRIES)
}

// How many tables stand before those of an operation, case by case as in the definition.
fn tables_before(op: Op) -> usize
    ensures { (result ≡ tables_before op) × (result ≤ 2) }
{
    match op {
        Op::Reciprocal => 0,
        Op::Root => 0,
        Op::InverseRoot => 2,
    }
}
