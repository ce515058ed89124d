// The formats as types.
ghost use Rattle.std.specs.Prelude.{◌≡◌, ℕ, ◌*◌, ◌^◌, ◌-◌, ◌<◌, ◌≤◌};
ghost use Rattle.ieee.specs.Format.{Format as TheFormat, binary32, binary64, sign_bit, least_normal, infinity, unit_of};
ghost use Rattle.pattern.specs.Format.{FormatLaws};

// A format: how many bits a fraction has, and the place of the sign. Its other numbers are worked out from these two.
pub trait Format {
    const FRACTION: u64;

    const PLACE: u64;

    ghost FRACTION: { ℕ };

    ghost PLACE: { ℕ };

    ghost format: { TheFormat };

    // The sign's bit.
    fn sign_bit() -> u64
        ensures value { result ≡ sign_bit format }
        ensures range { (0 < result) × (result ≤ 2 ^ 63) }
    {
        1 << Self::PLACE
    }

    // The pattern of the least normal number.
    fn least_normal() -> u64
        ensures { result ≡ least_normal format }
    {
        1 << Self::FRACTION
    }

    // The pattern of infinity; those above it are NaNs.
    fn infinity() -> u64
        ensures value { result ≡ infinity format }
        ensures range { (least_normal format < result) × (result < sign_bit format) }
    {
        ((1 << (Self::PLACE - Self::FRACTION)) - 1) << Self::FRACTION
    }

    // The top bit of a fraction, which is 1 in a quiet NaN and 0 in a signalling one.
    fn quiet_bit() -> u64
        ensures value { result ≡ 2 ^ (format.fraction_bits - 1) }
        ensures range { result < least_normal format }
    {
        1 << (Self::FRACTION - 1)
    }

    // A magnitude is counted in units of two to the power of minus this.
    fn unit() -> u64
        ensures value { result ≡ unit_of format }
        ensures range { result < 2 ^ 16 }
    {
        (1 << (Self::PLACE - Self::FRACTION - 1)) + Self::FRACTION - 2
    }

    ghost laws: { FormatLaws format FRACTION PLACE };
}

#[derive(Clone, Copy)]
pub struct Binary32;

#[derive(Clone, Copy)]
pub struct Binary64;

impl Format for Binary32 {
    ghost use Rattle.pattern.specs.Format.{laws32};

    const FRACTION: u64 = 23;

    const PLACE: u64 = 31;

    ghost FRACTION = { 23 };

    ghost PLACE = { 31 };

    ghost format = { binary32 };

    ghost laws = { laws32 };
}

impl Format for Binary64 {
    ghost use Rattle.pattern.specs.Format.{laws64};

    const FRACTION: u64 = 52;

    const PLACE: u64 = 63;

    ghost FRACTION = { 52 };

    ghost PLACE = { 63 };

    ghost format = { binary64 };

    ghost laws = { laws64 };
}
