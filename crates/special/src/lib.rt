// Operands that need no arithmetic: NaN before the sign, then a negative operand of a root, then zeros, then infinities. Each answer has a
// function that says its one line of the rules.
#![tactic(auto)]

ghost use Rattle.std.specs.Prelude.{◌≡◌, cond, ◌*◌, ◌<◌};
ghost use Rattle.kinds.specs.Flag.{no_flag, invalid, division_by_zero};
ghost use Rattle.ieee.specs.Format.{sign_bit, infinity, quiet_nan};
ghost use Rattle.ieee.specs.Answer.{answer, with_sign_bit, is_special, to_zero, to_infinity};
ghost use Rattle.pattern.specs.Answer.{Answered};
ghost use Rattle.special.specs.Special.{special_to};

use kinds::{Flags, Op};
use pattern::answer::{Rounded, flag_if, with_sign};
use pattern::format::Format;
use pattern::parts::Parts;

// Whether an operand is a NaN, infinity, zero, or a negative operand of a root.
pub fn is_special<F: Format>(op: Op, x: Parts) -> bool
    ensures { result ≡ is_special F.format op x.sign x.unsigned }
{
    (F::infinity() <= x.unsigned) | (x.unsigned == 0) | ((x.sign == 1) & !op.is_reciprocal())
}

// The answer to such an operand. A signalling NaN, whose top fraction bit is 0, raises invalid.
pub fn special<F: Format>(op: Op, x: Parts) -> Rounded
    requires { x.sign < 2 }
    ensures { Answered F.format (special_to F.format op x.sign x.unsigned) result }
{
    let infinity = F::infinity();
    let t = x.unsigned;
    if infinity < t {
        return not_a_number::<F>(t % F::least_normal() < F::quiet_bit());
    }
    if (x.sign == 1) & (t != 0) & !op.is_reciprocal() {
        return not_a_number::<F>(true);
    }
    if t == 0 {
        return at_zero::<F>(op, x.sign);
    }
    at_infinity::<F>(op, x.sign)
}

// The quiet NaN, which raises invalid or no flag.
fn not_a_number<F: Format>(raises: bool) -> Rounded
    ensures { Answered F.format (answer (quiet_nan F.format) (cond raises invalid no_flag)) result }
{
    Rounded {
        bits: F::infinity() + F::quiet_bit(),
        flags: flag_if(raises, Flags::INVALID),
    }
}

// The root of a zero is that zero; the others give infinity of the same sign and division by zero.
fn at_zero<F: Format>(op: Op, sign: u64) -> Rounded
    requires { sign < 2 }
    ensures { Answered F.format (to_zero F.format op sign) result }
{
    match op {
        Op::Reciprocal => divided_by_zero::<F>(sign),
        Op::Root => exact::<F>(with_sign::<F>(sign, 0)),
        Op::InverseRoot => divided_by_zero::<F>(sign),
    }
}

// The reciprocal is a zero of the same sign, the root of plus infinity itself, and its inverse root plus zero.
fn at_infinity<F: Format>(op: Op, sign: u64) -> Rounded
    requires { sign < 2 }
    ensures { Answered F.format (to_infinity F.format op sign) result }
{
    match op {
        Op::Reciprocal => exact::<F>(with_sign::<F>(sign, 0)),
        Op::Root => exact::<F>(F::infinity()),
        Op::InverseRoot => exact::<F>(0),
    }
}

fn divided_by_zero<F: Format>(sign: u64) -> Rounded
    requires { sign < 2 }
    ensures { Answered F.format (answer (with_sign_bit F.format sign (infinity F.format)) division_by_zero) result }
{
    Rounded {
        bits: with_sign::<F>(sign, F::infinity()),
        flags: Flags::DIVISION_BY_ZERO,
    }
}

fn exact<F: Format>(bits: u64) -> Rounded
    requires { bits < 2 * sign_bit F.format }
    ensures { Answered F.format (answer bits no_flag) result }
{
    Rounded { bits, flags: 0 }
}
