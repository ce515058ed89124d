// An answer: a pattern with its sign, and the flags that are raised.
ghost use Rattle.std.specs.Prelude.{◌≡◌, cond, ◌*◌, ◌≤◌, ◌<◌};
ghost use Rattle.ieee.specs.Format.{sign_bit};
ghost use Rattle.ieee.specs.Answer.{with_sign_bit};

use crate::format::Format;

// A pattern and the flags that its operation raises.
#[derive(Clone, Copy)]
pub struct Rounded {
    pub bits: u64,
    pub flags: u8,
}

// A flag or none, chosen as the definitions choose it; `u8::from(on) * flag` would be no plainer.
pub fn flag_if(on: bool, flag: u8) -> u8
    ensures { (result ≡ cond on flag 0) × (result ≤ flag) }
{
    if on { flag } else { 0 }
}

#[inline(always)]
pub fn with_sign<F: Format>(sign: u64, t: u64) -> u64
    requires { (sign < 2) × (t < sign_bit F.format) }
    ensures { (result ≡ with_sign_bit F.format sign t) × (result < 2 * sign_bit F.format) }
{
    (sign << F::PLACE) | t
}
