// The short way: a normal result of a normal operand, from the raw answer by one test.
ghost use Rattle.ieee.specs.Format.{binary32};
ghost use Rattle.ieee.specs.Answer.{to_finite};
ghost use Rattle.pattern.specs.Answer.{Answered};
ghost use Rattle.results.specs.Plain.{Plain};

use crate::estimate::estimate_of;
use floors::taken::taken_of;
use kinds::{Mode, Op};
use pattern::answer::Rounded;
use pattern::format::Binary32;
use pattern::operand::scale_normal;
use pattern::parts::Parts;
use rounding::normal::normal_answer;

#[inline(always)]
pub fn normal(op: Op, mode: Mode, x: Parts) -> Rounded
    requires { Plain op x }
    ensures { Answered binary32 (to_finite binary32 op mode x.sign x.unsigned) result }
{
    let s = scale_normal::<Binary32>(x);
    let e = estimate_of(op, s);
    let t = taken_of(
        op,
        mode,
        x.sign == 1,
        s.significand,
        e.scales.parity,
        e.answer,
    );
    normal_answer::<Binary32>(x.sign, e.scales.scale, t.significand, t.more)
}
