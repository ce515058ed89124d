// The widths of the raw unit as types, and its steps, calls and distances, over the digit size k and the number t of bits below the digits.
#![tactic(auto)]

ghost use Rattle.std.specs.Prelude.{ℕ};
ghost use Rattle.significand.specs.Width.{WidthLaws};

// k, the bits of a digit, and t, the bits below the three digits of a significand.
pub trait Width {
    const K: u32;

    const T: u32;

    ghost K: { ℕ };

    ghost T: { ℕ };

    ghost laws: { WidthLaws K T };
}
