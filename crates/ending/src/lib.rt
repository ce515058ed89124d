// A trailer put over bytes, part by part, each by its place from the trailer's first byte.
#![tactic(auto)]

ghost use Rattle.std.specs.Prelude.{◌≡◌, ◌+◌, ◌≤◌, length};
ghost use Rattle.words.specs.Splice.{splice};
ghost use Rattle.trailer.specs.Kinds.{length_of, radius_size, rounding_size};
ghost use Rattle.trailer.specs.Bytes.{radius_bytes, rounding_bytes, front_bytes, trailer_bytes};

use trailer::{Fields, Kind, layout_of, radius_size};
use words::{put_half, put_word};

// Puts the letters and the fields up to the step, which every kind has alike. Each part goes into the whole buffer by its place, because the
// promise (`splice`) is about the whole buffer; a wide radius is put because the definition of a trailer has one.
fn put_front(out: &mut [u8], at: usize, letters: [u8; 4], fields: Fields)
    requires { at + 14 ≤ length out.old }
    ensures { out.new ≡ splice at (front_bytes letters fields) out.old }
{
    words::put(out, at, letters);
    put_word(out, at + 4, fields.distance);
    put_half(out, at + 8, fields.width as u64);
    put_half(out, at + 10, fields.depth as u64);
    put_half(out, at + 12, fields.step);
}

fn put_radius(out: &mut [u8], at: usize, wide: bool, x: u64)
    requires { at + radius_size wide ≤ length out.old }
    ensures { out.new ≡ splice at (radius_bytes wide x) out.old }
{
    if wide {
        put_word(out, at, x);
    } else {
        put_half(out, at, x);
    }
}

fn put_rounding(out: &mut [u8], at: usize, rounded: bool, x: u64)
    requires { at + rounding_size rounded ≤ length out.old }
    ensures { out.new ≡ splice at (rounding_bytes rounded x) out.old }
{
    if rounded {
        put_half(out, at, x);
    }
}

// Puts a trailer of a kind over the bytes from `at` on.
pub fn put(out: &mut [u8], at: usize, kind: Kind, fields: Fields)
    requires { at + length_of kind ≤ length out.old }
    ensures { out.new ≡ splice at (trailer_bytes kind fields) out.old }
{
    let layout = layout_of(kind);
    let letters = layout.letters;
    put_front(out, at, letters, fields);
    put_radius(out, at + 14, layout.wide, fields.radius);
    put_rounding(
        out,
        at + (14 + radius_size(layout.wide)),
        layout.rounded,
        fields.rounding,
    );
}
