// Square, then root: a width that is squared, by the language's own product, and whose root is taken by the unit comes back. The
// function is no call of the unit; it stands for what a shop writes around one.
#![tactic(auto)]

ghost use Rattle.std.specs.Prelude.{◌≡◌, T};
ghost use Rattle.square.specs.Width.{is_width, root_of_square};

use plate::{Operation, Rounding, Status};

// The nearest root of the product of the width with itself, whatever the status; a NaN is given back as it came.
pub fn square_then_root(width: f32, status: Status) -> f32
    ensures value { result ≡ root_of_square width }
    ensures comes_back { T (is_width width) → result ≡ width }
{
    if width != width {
        return width;
    }
    let squared = width * width;
    let bits = squared.to_bits();
    let reply = plate::binary32(Operation::ROOT, Rounding::NEAREST, bits, status);
    f32::from_bits(reply.answer.unwrap())
}
