// A point prepared for every rounding; the centre there, and its record.
#![tactic(auto)]

ghost use Rattle.std.specs.Prelude.{◌≡◌, ◌+◌, ◌*◌, ◌≤◌, ◌<◌, length};
ghost use Rattle.words.specs.Splice.{splice};
ghost use Rattle.offset.specs.Inverse.{length_most, ComponentRange, ScaleOf};
ghost use Rattle.cutter.specs.Centre.{record_bytes};
ghost use Rattle.cutter.specs.Accepted.{Steps};
ghost use Rattle.centres.specs.Prepared.{signed_of, squared_of, PreparedAt};
ghost use Rattle.centres.specs.Words.{offset_parts, offsets_of, Short, words_bytes, touching_at};

use kinds::Mode;
use maps::Point;
use normals::normal_at;
use offset::{Component, rounded_over, scale_of};
use words::{Signed, put_word, wrapping_add_signed};

// A point as every rounding needs it: the normal's first two components, −dx and −dy, and the radius over its length.
#[derive(Clone, Copy)]
pub struct Prepared {
    pub x: Component,
    pub y: Component,
    pub scale: u64,
}

// The offsets along x, y and z, in micrometres.
#[derive(Clone, Copy)]
pub struct Offsets {
    pub x: Signed,
    pub y: Signed,
    pub z: Signed,
}

// The words of a centre's coordinates.
#[derive(Clone, Copy)]
pub struct Words {
    pub x: u32,
    pub y: u32,
    pub z: u32,
}

// A signed number with its square.
fn component_of(s: Signed) -> Component
    requires { s.magnitude ≤ length_most }
    ensures { signed_of result ≡ s }
{
    Component {
        negative: s.negative,
        magnitude: s.magnitude,
        square: s.magnitude * s.magnitude,
    }
}

impl Prepared {
    // A place that holds no point yet, because memory is fixed and has to hold something.
    pub fn none() -> Prepared
        ensures { (result.x.magnitude ≡ 0) × (result.y.magnitude ≡ 0) × (result.scale ≡ 0) }
    {
        let zero = Component {
            negative: false,
            magnitude: 0,
            square: 0,
        };
        Prepared {
            x: zero,
            y: zero,
            scale: 0,
        }
    }
}

// Prepares an inner point: one inverse root for all three offsets, and only its own number is kept after it.
pub fn prepare(point: Point<'_>) -> Prepared
    ensures { PreparedAt point.entry result }
{
    let normal = normal_at(point);
    Prepared {
        x: component_of(normal.x),
        y: component_of(normal.y),
        scale: scale_of(normal.squared, point.map.trailer.radius),
    }
}

// component × radius over the normal's length, rounded. Radius, squared length and scale go as three numbers, here and in `offset`, because
// the definitions take them so, and a type of the three would be made for one point.
fn offset_of(mode: Mode, component: Component, radius: u64, squared: u64, scale: u64) -> Signed
    requires { ComponentRange component.square radius squared × ScaleOf squared radius scale }
    ensures { (result ≡ offset_parts mode (signed_of component) radius squared) × (result.magnitude ≤ radius) }
{
    let magnitude = rounded_over(mode, component, radius, squared, scale);
    Signed {
        negative: component.negative,
        magnitude,
    }
}

// The offsets at a point.
fn offsets_of(mode: Mode, p: Prepared, step: u64, radius: u64) -> Offsets
    requires { Steps step radius × ScaleOf (squared_of p step) radius p.scale }
    ensures { (result ≡ offsets_of mode p step radius) × Short result }
{
    let up = Component {
        negative: false,
        magnitude: 2 * step,
        square: 4 * step * step,
    };
    let squared = p.x.square + p.y.square + up.square;
    let x = offset_of(mode, p.x, radius, squared, p.scale);
    let y = offset_of(mode, p.y, radius, squared, p.scale);
    let z = offset_of(mode, up, radius, squared, p.scale);
    Offsets { x, y, z }
}

// The centre at an inner point: the map point plus the offsets.
fn centre(mode: Mode, point: Point<'_>, p: Prepared) -> Words
    requires { PreparedAt point p }
    ensures { words_bytes result ≡ record_bytes (touching_at mode point.entry) }
{
    let step = point.map.trailer.step;
    let o = offsets_of(mode, p, step, point.map.trailer.radius);
    let height = point.map.height_word(point.place());
    Words {
        x: wrapping_add_signed((point.column as u64 * step) as u32, o.x),
        y: wrapping_add_signed((point.row as u64 * step) as u32, o.y),
        z: wrapping_add_signed(height, o.z),
    }
}

// Puts the three words of a record. The lift puts its own likewise, because it has them as three words that it read.
fn put_words(out: &mut [u8], at: usize, words: Words)
    requires { at + 12 ≤ length out.old }
    ensures { out.new ≡ splice at (words_bytes words) out.old }
{
    put_word(out, at, words.x as u64);
    put_word(out, at + 4, words.y as u64);
    put_word(out, at + 8, words.z as u64);
}

// Puts the record of an inner point, which is prepared, over the bytes from `at` on.
pub fn put_point(mode: Mode, point: Point<'_>, p: Prepared, out: &mut [u8], at: usize)
    requires prepared { PreparedAt point p }
    requires room { at + 12 ≤ length out.old }
    ensures { out.new ≡ splice at (record_bytes (touching_at mode point.entry)) out.old }
{
    put_words(out, at, centre(mode, point, p));
}
