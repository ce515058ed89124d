// The raw unit: the reciprocal, the root and the inverse root of a significand by a table, a short series and one product. The five numbered
// steps are one function at every width; at k = 7 an answer g stands for g / 2^28.
#![tactic(auto)]

ghost use Rattle.std.specs.Prelude.{◌≡◌, ℕ, ◌+◌, ◌*◌, ◌/◌, ◌≤◌, ◌<◌, ◌^◌, List, Result, IfOk};
ghost use Rattle.kinds.specs.declared.Op.{Op as Operation};
ghost use Rattle.kinds.specs.declared.Op.TheVariants.{Reciprocal, Root, InverseRoot};
ghost use Rattle.significand.specs.Width.{k32, t32, Significand, Operand};
ghost use Rattle.significand.specs.Steps.{index_of, factor_of, series_of, raw_of};
ghost use Rattle.significand.specs.Call.{is_significand, is_parity, raw_asked};
ghost use Rattle.tables.specs.Row.{index_at, parity_at};
ghost use Rattle.series.specs.Parts.{Reduced};
ghost use Rattle.raw.specs.Given.{RowGiven, no_tables, raw_given};

use kinds::{Op, Refusal};
use series::{Raw32, Reduction, inverse_root_series, reciprocal_series, reduce, root_series};
use significand::Width;
use std::convert::Infallible;
use tables::Row;

// What each width has of its own of the five steps: the row, because the tables lie in the code or are lent; the reduction, the sums and the
// last product, because at k = 15 they outgrow a word, and what they need there would be slower at k = 7: a root's sum in two parts took
// 6.4 ns where this one takes 5.6.
pub trait Steps: Width {
    // What stands in the way of an answer.
    type Missing: Copy;

    // What an operation needs of the lent tables.
    ghost IsReady: { Operation → List ℕ → Type 0 };

    // The answer of an operation, or what stands in its way.
    ghost given: { Operation → ℕ → ℕ → List ℕ → Result ℕ Self.Missing };

    // Steps 1 and 4: R and M.
    fn row(op: Op, y: u64, p: u64, tables: &[u64]) -> Result<Row, Self::Missing>
        requires { Operand Self.K Self.T op y p × IsReady op tables.now }
        ensures { RowGiven Self.K Self.T op y p (given op y p tables.now) result };

    // Step 2.
    fn reduced(y: u64, r: u64) -> Reduction
        requires { Significand Self.K Self.T y × (r ≡ factor_of Self.K (index_of Self.K Self.T y)) }
        ensures { Reduced Self.K Self.T (y * r) result };

    // Step 3.
    fn series(op: Op, d: Reduction) -> u64
        requires { d.magnitude < 2 ^ (3 * Self.K) }
        ensures { (result ≡ series_of Self.K op d.positive d.magnitude) × (result < 2 ^ (4 * Self.K + 1)) };

    // Step 5.
    fn scaled(m: u64, b: u64) -> u64
        requires { (m ≤ 2 ^ (4 * Self.K + 1)) × (b < 2 ^ (4 * Self.K + 1)) }
        ensures { (result ≡ m * b / 2 ^ (4 * Self.K)) × (result ≤ 2 ^ (4 * Self.K + 2)) };
}

// The answer of an operation at every width. A significand and a parity are plain numbers with their facts in the clauses, as callers have
// them: a type for both would be made before each call and read in it, and is no plainer.
#[inline(always)]
pub fn answered<W: Steps>(op: Op, y: u64, p: u64, tables: &[u64]) -> Result<u64, W::Missing>
    requires { Operand W.K W.T op y p × W.IsReady op tables.now }
    ensures value { result ≡ W.given op y p tables.now }
    ensures range { IfOk result (λ g. g ≤ 2 ^ (4 * W.K + 2)) }
{
    let row = W::row(op, y, p, tables)?;
    let b = W::series(op, W::reduced(y, row.0));
    Ok(W::scaled(row.1, b))
}

impl Steps for Raw32 {
    type Missing = Infallible;

    ghost IsReady = { no_tables };

    ghost given = { raw_given };

    // By the tables in the code.
    #[inline(always)]
    fn row(op: Op, y: u64, p: u64, tables: &[u64]) -> Result<Row, Infallible> {
        let row = match op {
            Op::Reciprocal => reciprocal_row(y),
            Op::Root => roots::row(row_key(y, p)),
            Op::InverseRoot => inverse_roots::row(row_key(y, p)),
        };
        Ok(row)
    }

    #[inline(always)]
    fn reduced(y: u64, r: u64) -> Reduction {
        reduce(y, r)
    }

    // The `match` stands at each width, because each has three sums of its own and docs/PROMISES.md names them.
    #[inline(always)]
    fn series(op: Op, d: Reduction) -> u64 {
        match op {
            Op::Reciprocal => reciprocal_series(d.positive, d.magnitude),
            Op::Root => root_series(d.positive, d.magnitude),
            Op::InverseRoot => inverse_root_series(d.positive, d.magnitude),
        }
    }

    // The product has 59 bits.
    #[inline(always)]
    fn scaled(m: u64, b: u64) -> u64 {
        m * b / 268435456
    }
}

// R, and M of the reciprocal, which is R × 2^20.
#[inline(always)]
fn reciprocal_row(y: u64) -> Row
    requires { Significand k32 t32 y }
    ensures { (result.0 ≡ factor_of k32 (y / 2 ^ 16)) × (result.1 ≡ result.0 * 2 ^ 20) }
{
    let r = factors::factor((y >> 16) as u32 % 128);
    Row(r, r * 1048576)
}

// The key of a root's row: the seven lower bits of the index, the parity above them, and a one above both.
#[inline(always)]
fn row_key(y: u64, p: u64) -> u32
    requires { Significand k32 t32 y × (p ≤ 1) }
    ensures { (256 ≤ result) × (result < 512) × (index_at k32 result ≡ y / 2 ^ 16) × (parity_at k32 result ≡ p) }
{
    (y >> 16) as u32 % 128 + 128 * (p as u32 % 2) + 256
}

// The raw call: questions 3 and 4, and the answer behind them.
#[inline(always)]
pub fn call(op: Op, significand: u32, parity: u8) -> Result<u32, Refusal>
    ensures { result ≡ raw_asked op significand parity }
{
    if !is_significand::<Raw32>(significand as u64) {
        return Err(Refusal::Significand);
    }
    if !is_parity(op, parity) {
        return Err(Refusal::Parity);
    }
    Ok(answer(op, significand, parity))
}

// Question 3 at every width: the highest of 3k + t bits is one, and nothing stands above it.
#[inline(always)]
pub fn is_significand<W: Width>(y: u64) -> bool
    ensures { result ≡ is_significand W.K W.T y }
{
    y >> (3 * W::K + W::T - 1) == 1
}

// Question 4. One comparison for each operation, because where both parities are compared the call branches on the parity, which nobody can
// foretell.
pub fn is_parity(op: Op, parity: u8) -> bool
    ensures { result ≡ is_parity op parity }
{
    match op {
        Op::Reciprocal => parity == 0,
        Op::Root => parity <= 1,
        Op::InverseRoot => parity <= 1,
    }
}

// The answer of an operation at k = 7, each operation by a text of its own: which it is, is asked once.
#[inline(always)]
pub fn answer(op: Op, significand: u32, parity: u8) -> u32
    requires { Operand k32 t32 op significand parity }
    ensures { result ≡ raw_of k32 t32 op significand parity }
{
    match op {
        Op::Reciprocal => reciprocal(significand),
        Op::Root => root(significand, parity as u32),
        Op::InverseRoot => inverse_root(significand, parity as u32),
    }
}

#[inline(always)]
pub fn reciprocal(y: u32) -> u32
    requires { Significand k32 t32 y }
    ensures { result ≡ raw_of k32 t32 Reciprocal y 0 }
{
    answer_by(Op::Reciprocal, y, 0)
}

// The root of Y, or of 2Y where p is 1.
#[inline(always)]
pub fn root(y: u32, p: u32) -> u32
    requires { Significand k32 t32 y × (p ≤ 1) }
    ensures { result ≡ raw_of k32 t32 Root y p }
{
    answer_by(Op::Root, y, p)
}

// The inverse root of Y, or of 2Y where p is 1.
#[inline(always)]
pub fn inverse_root(y: u32, p: u32) -> u32
    requires { Significand k32 t32 y × (p ≤ 1) }
    ensures { result ≡ raw_of k32 t32 InverseRoot y p }
{
    answer_by(Op::InverseRoot, y, p)
}

// At k = 7 nothing stands in the way of an answer.
#[inline(always)]
fn answer_by(op: Op, y: u32, p: u32) -> u32
    requires { Operand k32 t32 op y p }
    ensures { result ≡ raw_of k32 t32 op y p }
{
    match answered::<Raw32>(op, y as u64, p as u64, &[]) {
        Ok(g) => g as u32,
        Err(never) => match never {},
    }
}
