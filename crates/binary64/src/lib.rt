// The binary64 unit: reciprocal, root and inverse root of a pattern, correctly rounded, with flags. The roots take M from tables that the
// caller lends, whose entry is tested before it is used.
#![tactic(auto)]

mod below;

ghost use Rattle.std.specs.Prelude.{◌≡◌, T, length};
ghost use Rattle.significand.specs.Width.{k64};
ghost use Rattle.significand.specs.Call.{is_lent};
ghost use Rattle.ieee.specs.Format.{binary64};
ghost use Rattle.pattern.specs.Answer.{Replied};
ghost use Rattle.binary64.specs.Call.{served_asked, rounded64_asked};

use below::below;
use kinds::{Mode, Op, Refusal};
use pattern::answer::Rounded;
use pattern::format::Binary64;
use pattern::parts::fields;
use rounding::round;
use special::{is_special, special};

// The answer to any pattern: question 15, which asks for numbers alone, first; then the work, which asks the last.
#[inline(always)]
pub fn rounded(op: Op, mode: Mode, bits: u64, tables: &[u64]) -> Result<Rounded, Refusal>
    ensures { Replied binary64 (rounded64_asked op mode bits tables.now) result }
{
    if !raw64::is_lent(op, tables.len()) {
        return Err(Refusal::Tables);
    }
    answer(op, mode, bits, tables)
}

// Question 16 and the answer of an operation. A special operand needs no entry.
#[inline(always)]
fn answer(op: Op, mode: Mode, bits: u64, tables: &[u64]) -> Result<Rounded, Refusal>
    requires { T (is_lent k64 op (length tables.now)) }
    ensures { Replied binary64 (served_asked op mode bits tables.now) result }
{
    let x = fields::<Binary64>(bits);
    if is_special::<Binary64>(op, x) {
        return Ok(special::<Binary64>(op, x));
    }
    let n = below(op, x, tables)?;
    Ok(round::<Binary64>(mode, x.sign, n))
}
