// The plate unit. Every call that is open to users stands in this file and, for callers from C, in the crate `plate_c`, and nowhere else.
// None asks anything of its caller: an operand that a call cannot take gets the refusal of the first question that it fails. The calls have
// one shape: an operation and a rounding are cases once their questions are asked here; the layers below ask the others and do the work.
#![tactic(auto)]

pub mod c;

ghost use Rattle.std.specs.Prelude.{◌≡◌, length, Ok, Err};
ghost use Rattle.kinds.specs.declared.Rule.TheVariants.{Touching, Lifted};
ghost use Rattle.kinds.specs.Rounding.{number_of};
ghost use Rattle.kinds.specs.Refusal.{refusal_of, answer_of, operation_asked, rounding_asked};
ghost use Rattle.significand.specs.Call.{raw_refusal, raw_answer, raw64_refusal, raw64_answer, fill_refusal, filling_asked, slice_after};
ghost use Rattle.ieee.specs.Format.{binary32, binary64};
ghost use Rattle.ieee.specs.Call.{binary32_refusal, binary32_bits, binary32_status, binary32_asked};
ghost use Rattle.pattern.specs.Answer.{Replied};
ghost use Rattle.binary64.specs.Call.{binary64_refusal, binary64_bits, binary64_status};
ghost use Rattle.reader.specs.Reader.{record_refusal};
ghost use Rattle.plate.specs.Status.{raised, cleared};
ghost use Rattle.plate.specs.Raw.{raw_call};
ghost use Rattle.plate.specs.Raw64.{raw64_call};
ghost use Rattle.plate.specs.Binary32.{binary32_call};
ghost use Rattle.plate.specs.Binary64.{binary64_answer, binary64_call};
ghost use Rattle.plate.specs.List.{ListCall};
ghost use Rattle.plate.specs.Record.{record_call, record_told, told_of};

pub use kinds::Refusal;
use kinds::{Flags, Mode, Op, Rule, joined};
use pattern::answer::Rounded;

// An operation by its number: a struct with named constants and no enum, because a call takes every byte and answers it.
#[derive(Clone, Copy, Debug, PartialEq, Eq)]
pub struct Operation(pub u8);

impl Operation {
    pub const RECIPROCAL: Operation = Operation(1);

    pub const ROOT: Operation = Operation(2);

    pub const INVERSE_ROOT: Operation = Operation(3);
}

// Question 1, and the operation with this number.
impl TryFrom<Operation> for Op {
    type Error = Refusal;

    ghost try_from_gives = { λ n r. r ≡ operation_asked n.0 };

    fn try_from(operation: Operation) -> Result<Op, Refusal> {
        Op::try_from(operation.0)
    }
}

// A rounding by its number, a struct likewise.
#[derive(Clone, Copy, Debug, PartialEq, Eq)]
pub struct Rounding(pub u8);

impl Rounding {
    pub const NEAREST: Rounding = Rounding(0);

    pub const UP: Rounding = Rounding(1);

    pub const DOWN: Rounding = Rounding(2);

    pub const TOWARD_ZERO: Rounding = Rounding(3);
}

// Question 2, and the rounding with this number.
impl TryFrom<Rounding> for Mode {
    type Error = Refusal;

    ghost try_from_gives = { λ n r. r ≡ rounding_asked n.0 };

    fn try_from(rounding: Rounding) -> Result<Mode, Refusal> {
        Mode::try_from(rounding.0)
    }
}

impl From<Mode> for Rounding {
    ghost from_gives = { λ mode r. r ≡ record { 0 = number_of mode } };

    fn from(mode: Mode) -> Rounding {
        Rounding(mode.number())
    }
}

// A flag, or several, by its bit; a number, because flags are joined.
#[derive(Clone, Copy, Debug, PartialEq, Eq)]
pub struct Flag(pub u8);

impl Flag {
    pub const INVALID: Flag = Flag(Flags::INVALID);

    pub const DIVISION_BY_ZERO: Flag = Flag(Flags::DIVISION_BY_ZERO);

    pub const OVERFLOW: Flag = Flag(Flags::OVERFLOW);

    pub const UNDERFLOW: Flag = Flag(Flags::UNDERFLOW);

    pub const INEXACT: Flag = Flag(Flags::INEXACT);
}

// The flags that were raised since the status was last cleared, one bit each. A status is a value: a method hands the new one back.
#[derive(Clone, Copy, Debug, Default, PartialEq, Eq)]
pub struct Status {
    pub flags: u8,
}

impl Status {
    // A status with no flag.
    pub fn new() -> Status
        ensures { result ≡ cleared }
    {
        Status { flags: 0 }
    }

    // The status with a flag raised; the flags that stand stay.
    pub fn raise(self, flag: Flag) -> Status
        ensures { result ≡ raised self flag.0 }
    {
        Status {
            flags: joined(self.flags, flag.0),
        }
    }

    // The status with no flag.
    pub fn clear(self) -> Status
        ensures { result ≡ cleared }
    {
        Status::new()
    }
}

// What a rounded call gives back: the new status, which after a refusal is the status as given, and the answer's bits or the refusal.
#[derive(Clone, Copy, Debug, PartialEq, Eq)]
pub struct Reply<T> {
    pub status: Status,
    pub answer: Result<T, Refusal>,
}

impl<T> Reply<T> {
    // An answer, whose flags are raised in the status.
    #[inline(always)]
    fn answered(status: Status, flags: u8, bits: T) -> Reply<T>
        ensures { result ≡ record { status = raised status flags; answer = Ok bits } }
    {
        Reply {
            status: status.raise(Flag(flags)),
            answer: Ok(bits),
        }
    }

    // A refusal, and the status as given.
    #[inline(always)]
    fn refused(status: Status, refusal: Refusal) -> Reply<T>
        ensures { result ≡ record { status = status; answer = Err refusal } }
    {
        Reply {
            status,
            answer: Err(refusal),
        }
    }
}

// The raw call: an operation on Y = significand / 2^23, or on 2Y where the parity is 1. Its answer g stands for g / 2^28.
pub fn raw(operation: Operation, significand: u32, parity: u8) -> Result<u32, Refusal>
    ensures value { result ≡ raw_call operation.0 significand parity }
    ensures numbers { (refusal_of result ≡ raw_refusal operation.0 significand parity) × (answer_of result ≡ raw_answer operation.0 significand parity) }
{
    raw::call(Op::try_from(operation)?, significand, parity)
}

// How many numbers the tables are: what a caller lends has this length.
pub const TABLES: usize = raw64::TABLES;

// The filling call: the four tables of M that the roots of raw64 need, put into the lent slice. It asks one question, 15, and after that
// refusal the slice holds what it held.
pub fn fill_tables(tables: &mut [u64]) -> Result<(), Refusal>
    ensures value { result ≡ filling_asked (length tables.old) }
    ensures numbers { refusal_of result ≡ fill_refusal (length tables.old) }
    ensures tables_after { tables.new ≡ slice_after tables.old }
{
    filling::call(tables)
}

// The raw call for significands of 53 bits: an operation on Y = significand / 2^52, or on 2Y where the parity is 1. Its answer g stands
// for g / 2^60. A root takes its M from the lent tables and tests it; the reciprocal looks at none.
pub fn raw64(
    operation: Operation,
    significand: u64,
    parity: u8,
    tables: &[u64],
) -> Result<u64, Refusal>
    ensures value { result ≡ raw64_call operation.0 significand parity tables.now }
    ensures numbers { (refusal_of result ≡ raw64_refusal operation.0 significand parity tables.now) × (answer_of result ≡ raw64_answer operation.0 significand parity tables.now) }
{
    raw64::call(Op::try_from(operation)?, significand, parity, tables)
}

// The binary32 call: an operation on the number with these bits, rounded. The flags that it raises are joined to the status.
pub fn binary32(operation: Operation, rounding: Rounding, bits: u32, status: Status) -> Reply<u32>
    ensures value { result ≡ binary32_call operation.0 rounding.0 bits status }
    ensures numbers { (refusal_of result.answer ≡ binary32_refusal operation.0 rounding.0) × (answer_of result.answer ≡ binary32_bits operation.0 rounding.0 bits) }
    ensures status { result.status.flags ≡ binary32_status operation.0 rounding.0 bits status.flags }
{
    match binary32_rounded(operation, rounding, bits) {
        Ok(r) => Reply::answered(status, r.flags, r.bits as u32),
        Err(refusal) => Reply::refused(status, refusal),
    }
}

// Questions 1 and 2, and the answer with the flags that it raises.
#[inline(always)]
fn binary32_rounded(operation: Operation, rounding: Rounding, bits: u32) -> Result<Rounded, Refusal>
    ensures { Replied binary32 (binary32_asked operation.0 rounding.0 bits) result }
{
    let op = Op::try_from(operation)?;
    let mode = Mode::try_from(rounding)?;
    Ok(binary32::rounded(op, mode, bits))
}

// The binary64 call. The roots take M from the lent tables, and test the entry that they use; the reciprocal looks at no slice.
pub fn binary64(
    operation: Operation,
    rounding: Rounding,
    bits: u64,
    status: Status,
    tables: &[u64],
) -> Reply<u64>
    ensures value { result ≡ binary64_call operation.0 rounding.0 bits status tables.now }
    ensures numbers { (refusal_of result.answer ≡ binary64_refusal operation.0 rounding.0 bits tables.now) × (answer_of result.answer ≡ binary64_bits operation.0 rounding.0 bits tables.now) }
    ensures status { result.status.flags ≡ binary64_status operation.0 rounding.0 bits status.flags tables.now }
{
    match binary64_rounded(operation, rounding, bits, tables) {
        Ok(r) => Reply::answered(status, r.flags, r.bits),
        Err(refusal) => Reply::refused(status, refusal),
    }
}

// Questions 1, 2, 15 and 16, and the answer with the flags that it raises.
#[inline(always)]
fn binary64_rounded(
    operation: Operation,
    rounding: Rounding,
    bits: u64,
    tables: &[u64],
) -> Result<Rounded, Refusal>
    ensures { Replied binary64 (binary64_answer operation.0 rounding.0 bits tables.now) result }
{
    binary64::rounded(
        Op::try_from(operation)?,
        Mode::try_from(rounding)?,
        bits,
        tables,
    )
}

// The list call: the cutter's centres over a map, put at the front of the lent buffer; the bytes behind the list are kept. It gives the
// list's length. After a refusal the buffer holds what it held.
pub fn list(rounding: Rounding, map: &[u8], buffer: &mut [u8]) -> Result<usize, Refusal>
    ensures { ListCall Touching rounding.0 map.now buffer.old result buffer.new }
{
    list_by(Rule::Touching, rounding, map, buffer)
}

// The same with each centre lifted until the ball keeps off the nine heights round its point. A call of its own and no parameter, because
// users and programs in C call both by these names.
pub fn lifted_list(rounding: Rounding, map: &[u8], buffer: &mut [u8]) -> Result<usize, Refusal>
    ensures { ListCall Lifted rounding.0 map.now buffer.old result buffer.new }
{
    list_by(Rule::Lifted, rounding, map, buffer)
}

fn list_by(rule: Rule, rounding: Rounding, map: &[u8], buffer: &mut [u8]) -> Result<usize, Refusal>
    ensures { ListCall rule rounding.0 map.now buffer.old result buffer.new }
{
    listing::call(rule, Mode::try_from(rounding)?, map, buffer)
}

// A record of a list, with what its trailer says: the rounding that made the list, unknown where the trailer has none, as in lists of
// document 01; the sizes, columns and rows first; and the record's coordinates, in micrometres like step and radius. Not the reader's
// record, because users name a rounding by `Rounding`.
#[derive(Clone, Copy, Debug, PartialEq, Eq)]
pub struct ListRecord {
    pub rounding: Option<Rounding>,
    pub width: u32,
    pub depth: u32,
    pub step: u32,
    pub radius: u32,
    pub x: i32,
    pub y: i32,
    pub z: i32,
}

// The record call: a list's rounding and sizes, and its record at an index, counted from 0, row by row. The bytes are the list's and no
// more: as many as the list call reported.
pub fn record(list: &[u8], index: usize) -> Result<ListRecord, Refusal>
    ensures value { result ≡ record_call list.now index }
    ensures numbers { (refusal_of result ≡ record_refusal list.now index) × (told_of result ≡ record_told list.now index) }
{
    let r = reader::call(list, index)?;
    Ok(ListRecord {
        rounding: r.rounding.map(Rounding::from),
        width: r.width,
        depth: r.depth,
        step: r.step,
        radius: r.radius,
        x: r.x,
        y: r.y,
        z: r.z,
    })
}
