// From the pattern below the exact result to the rounded pattern and its flags, and the short way of a normal result.
#![tactic(auto)]

pub mod normal;

ghost use Rattle.std.specs.Prelude.{◌≡◌, cond, ◌≤◌, ◌<◌};
ghost use Rattle.ieee.specs.Format.{infinity};
ghost use Rattle.pattern.specs.Answer.{Answered};
ghost use Rattle.rounding.specs.Rounded.{rounded_from};

use kinds::{Flags, Mode, goes_away};
use neighbour::Neighbour;
use pattern::answer::{Rounded, flag_if, with_sign};
use pattern::format::Format;

// The neighbour that the rounding takes, with its sign, and the flags.
#[inline(always)]
pub fn round<F: Format>(mode: Mode, sign: u64, n: Neighbour) -> Rounded
    requires { (sign < 2) × (n.pattern < infinity F.format) }
    ensures { Answered F.format (rounded_from F.format mode sign n) result }
{
    let infinity = F::infinity();
    let odd = n.pattern % 2 == 1;
    let away = goes_away(mode, sign == 1, odd, n.half, n.more);
    let t = choose(away, n.pattern + 1, n.pattern);
    let inexact = n.half | n.more;
    let overflow = n.beyond | (t == infinity);
    let underflow = (n.pattern < F::least_normal()) & inexact;
    let flags = flag_if(overflow, Flags::OVERFLOW)
        + flag_if(underflow, Flags::UNDERFLOW)
        + flag_if(inexact, Flags::INEXACT);
    Rounded {
        bits: with_sign::<F>(sign, t),
        flags,
    }
}

// One of two numbers, as the definition `taken_from` chooses; `pattern + u64::from(away)` would be no plainer.
fn choose(first: bool, a: u64, b: u64) -> u64
    requires { b ≤ a }
    ensures { (result ≡ cond first a b) × (result ≤ a) }
{
    if first { a } else { b }
}
