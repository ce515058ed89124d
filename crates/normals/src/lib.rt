// The normal at a point of a map.
#![tactic(auto)]

ghost use Rattle.std.specs.Prelude.{◌≡◌, ◌+◌, ◌*◌, ◌≤◌, ◌<◌, ◌-ℤ◌};
ghost use Rattle.words.specs.Word.{word_at};
ghost use Rattle.words.specs.Signed.{signed};
ghost use Rattle.words.specs.Parts.{parts_of};
ghost use Rattle.cutter.specs.Limits.{step_most, difference_most};
ghost use Rattle.maps.specs.Points.{dx_of, dy_of};
ghost use Rattle.normals.specs.Normal.{NormalOf, Measured};

use maps::{Map, Point};
use words::{Signed, i32_of, parts_of};

// The height at place i less that at place j.
fn slope(map: Map<'_>, i: usize, j: usize) -> Signed
    requires { (i < map.trailer.width * map.trailer.depth) × (j < map.trailer.width * map.trailer.depth) }
    ensures { (result ≡ parts_of (signed (word_at map.entry.bytes.now (4 * i)) -ℤ signed (word_at map.entry.bytes.now (4 * j)))) × (result.magnitude ≤ difference_most) }
{
    parts_of(i32_of(map.height_word(i)) - i32_of(map.height_word(j)))
}

// The normal by its first two components, −dx and −dy, and its squared length.
#[derive(Clone, Copy)]
pub struct Normal {
    pub x: Signed,
    pub y: Signed,
    pub squared: u64,
}

// The normal at an inner point.
pub fn normal_at(point: Point<'_>) -> Normal
    ensures { NormalOf (dx_of point.entry) (dy_of point.entry) result × Measured result point.entry.map.trailer.step }
{
    let place = point.place();
    let width = point.map.trailer.width;
    let x = slope(point.map, place - 1, place + 1);
    let y = slope(point.map, place - width, place + width);
    let squared = squared_length(x.magnitude, y.magnitude, point.map.trailer.step);
    Normal { x, y, squared }
}

fn squared_length(x: u64, y: u64, step: u64) -> u64
    requires { (x ≤ difference_most) × (y ≤ difference_most) × (step ≤ step_most) }
    ensures { result ≡ x * x + y * y + 4 * step * step }
{
    x * x + y * y + 4 * step * step
}
