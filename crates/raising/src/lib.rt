// z raised over one height and over three of a row. Heights have a bias, so that none is negative.
#![tactic(auto)]

ghost use Rattle.std.specs.Prelude.{◌≡◌, ◌+◌, ◌-◌, ◌*◌, ◌^◌, ◌≤◌, ◌<◌, ltb};
ghost use Rattle.numbers.specs.Least.{LeastFrom, NotPast};
ghost use Rattle.raising.specs.Biased.{three_from, meets_one, meets_these};
ghost use Rattle.raising.specs.Squares.{Small};

use ceiling::ceiling_root;
use maps::Map;

// The squares of the level distances along x or y: to the column or row before the point, to its own, and to the one behind. That they
// are small stands in clauses and not in the type, because definitions make such values, and each of them would carry a proof.
#[derive(Clone, Copy)]
pub struct Squares {
    pub before: u64,
    pub own: u64,
    pub behind: u64,
}

// Whether the ball at z touches the height h, whose place is the root of `apart` away. One test of squares does for three: where z is not
// above h, 0 is below the ball's square, and where the place is not below the ball, nothing is below 0. The four numbers go by themselves,
// here and below, because z is another at each height, and the definition of meeting takes the rest so.
fn touches(z: u64, h: u64, apart: u64, radius: u64) -> bool
    requires { (z < 2 ^ 31) × (radius < 2 ^ 22) }
    ensures { result ≡ ltb ((z - h) * (z - h)) (radius * radius - apart) }
{
    let above = z.saturating_sub(h);
    above * above < (radius * radius).saturating_sub(apart)
}

// z raised over the height h: a root only where the ball touches it.
fn raise_over(z: u64, h: u64, apart: u64, radius: u64) -> u64
    requires { (z < 2 ^ 31) × (h < 2 ^ 30) × (radius < 2 ^ 22) }
    ensures { LeastFrom (meets_one radius h apart) z result × (result < 2 ^ 31) }
{
    if touches(z, h, apart, radius) {
        h + ceiling_root(radius * radius - apart)
    } else {
        z
    }
}

// z, or one more where the ball touches the height h: rounding leaves half of all centres one short at their own place, and no root is
// needed there.
pub fn nudge(z: u64, h: u64, apart: u64, radius: u64) -> u64
    requires { (z < 2 ^ 30) × (radius < 2 ^ 22) }
    ensures { NotPast (meets_one radius h apart) z result × (result < 2 ^ 31) }
{
    if touches(z, h, apart, radius) {
        z + 1
    } else {
        z
    }
}

// z raised over three heights of a row, those round a column; y is the square of the row's level distance. Three named steps: a fold would
// have to say which square goes with which height.
pub fn raise_row(map: Map<'_>, column: usize, row: usize, x: Squares, y: u64, z: u64) -> u64
    requires inside { (1 ≤ column) × (column + 1 < map.trailer.width) × (row < map.trailer.depth) }
    requires small { Small x × (y < 2 ^ 36) × (z < 2 ^ 31) }
    ensures { LeastFrom (meets_these map.entry.trailer.radius (three_from map.entry.bytes.now (row * map.entry.trailer.width + column - 1) x y)) z result × (result < 2 ^ 31) }
{
    let radius = map.trailer.radius;
    let i = row * map.trailer.width + column - 1;
    let first = raise_over(z, map.height_at(i), x.before + y, radius);
    let second = raise_over(first, map.height_at(i + 1), x.own + y, radius);
    raise_over(second, map.height_at(i + 2), x.behind + y, radius)
}
