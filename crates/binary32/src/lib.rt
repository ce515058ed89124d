// The binary32 unit: reciprocal, root and inverse root of a pattern, correctly rounded, with flags.
#![tactic(auto)]

ghost use Rattle.std.specs.Prelude.{◌≡◌};
ghost use Rattle.ieee.specs.Format.{binary32};
ghost use Rattle.ieee.specs.Answer.{answer_of};
ghost use Rattle.pattern.specs.Answer.{Answered};
ghost use Rattle.binary32.specs.Normal.{is_plain};

use kinds::{Mode, Op};
use pattern::answer::Rounded;
use pattern::format::Binary32;
use pattern::parts::fields;
use results::finite;
use results::normal::normal;
use special::{is_special, special};

// The patterns of the least normal number and of infinity; those above the latter are NaNs and negative. Of 32 bits, because the bits are
// compared as they come, and the format's have 64.
const LEAST_NORMAL: u32 = 0x80_0000;

const INFINITY: u32 = 0x7F80_0000;

// The answer to any pattern. Where the operand and the result are normal numbers an operation works the short way, of which each has its
// own, and else apart.
#[inline(always)]
pub fn rounded(op: Op, mode: Mode, bits: u32) -> Rounded
    ensures { Answered binary32 (answer_of binary32 op mode bits) result }
{
    match op {
        Op::Reciprocal => by(Op::Reciprocal, mode, bits),
        Op::Root => by(Op::Root, mode, bits),
        Op::InverseRoot => by(Op::InverseRoot, mode, bits),
    }
}

// Put into each arm above, so that each operation has its own code.
#[inline(always)]
fn by(op: Op, mode: Mode, bits: u32) -> Rounded
    ensures { Answered binary32 (answer_of binary32 op mode bits) result }
{
    let x = fields::<Binary32>(bits as u64);
    if !is_plain(op, bits, x.exponent) {
        return apart(op, mode, bits);
    }
    normal(op, mode, x)
}

// Whether the operand is a normal number and its result too, whatever the rounding. Both ends are compared as in the definition of this
// name; `contains` would be no plainer.
#[inline(always)]
fn is_plain(op: Op, bits: u32, exponent: u64) -> bool
    ensures { result ≡ is_plain op bits exponent }
{
    match op {
        Op::Reciprocal => (1 <= exponent) & (exponent <= 252),
        Op::Root => (LEAST_NORMAL <= bits) & (bits < INFINITY),
        Op::InverseRoot => (LEAST_NORMAL <= bits) & (bits < INFINITY),
    }
}

// The answer to any pattern, the long way. The steps are those of `binary64::answer`, which reads lent tables and may be refused: of its
// nine calls those of the raw answer and of the floor differ. One function over the format would want a trait with a refusal type and these
// two for each format, which is more text than what is shared.
#[cold]
#[inline(never)]
fn apart(op: Op, mode: Mode, bits: u32) -> Rounded
    ensures { Answered binary32 (answer_of binary32 op mode bits) result }
{
    let x = fields::<Binary32>(bits as u64);
    if is_special::<Binary32>(op, x) {
        return special::<Binary32>(op, x);
    }
    finite(op, mode, x)
}
