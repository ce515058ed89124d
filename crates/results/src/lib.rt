// Results of binary32 operands that are finite and not zero, from the raw answer: a normal one by the short way of its operation, and any
// by its floor.
#![tactic(auto)]

mod estimate;
pub mod normal;

ghost use Rattle.std.specs.Prelude.{◌<◌};
ghost use Rattle.ieee.specs.Format.{binary32};
ghost use Rattle.ieee.specs.Answer.{to_finite};
ghost use Rattle.pattern.specs.Answer.{Answered};
ghost use Rattle.pattern.specs.Operand.{Ordinary};
ghost use Rattle.pattern.specs.Parts.{FieldsOf};

use estimate::estimate_of;
use floors::floor_of;
use kinds::{Mode, Op};
use neighbour::lower;
use pattern::answer::Rounded;
use pattern::format::Binary32;
use pattern::operand::scale;
use pattern::parts::Parts;
use rounding::round;

// Any result.
pub fn finite(op: Op, mode: Mode, x: Parts) -> Rounded
    requires { Ordinary binary32 x.unsigned × FieldsOf binary32 x × (x.sign < 2) }
    ensures { Answered binary32 (to_finite binary32 op mode x.sign x.unsigned) result }
{
    let s = scale::<Binary32>(x);
    let e = estimate_of(op, s);
    let f = floor_of(op, s.significand, e.scales.parity, e.answer);
    let n = lower::<Binary32>(f.quotient, f.more, e.scales.scale);
    round::<Binary32>(mode, x.sign, n)
}
