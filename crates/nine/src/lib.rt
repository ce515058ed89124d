// The lift of a centre's z over the nine heights round its point. Heights have a bias, so that none is negative.
#![tactic(auto)]

ghost use Rattle.std.specs.Prelude.{◌≡◌, ◌^◌, ◌≤◌, ◌<◌};
ghost use Rattle.cutter.specs.Limits.{step_most, radius_most};
ghost use Rattle.cutter.specs.Lift.{nine_at, lifted_over};
ghost use Rattle.numbers.specs.Least.{LeastFrom};
ghost use Rattle.raising.specs.Biased.{lowered, meets_these};
ghost use Rattle.raising.specs.Squares.{Small};
ghost use Rattle.nine.specs.Offset.{squares_of, nine_from, centre_from};

use maps::Point;
use raising::{Squares, nudge, raise_row};
use words::Signed;

// The squares of the level distances from a centre with this offset from its point.
fn squares_of(offset: Signed, step: u64) -> Squares
    requires { (offset.magnitude ≤ radius_most) × (step ≤ step_most) }
    ensures { (result ≡ squares_of offset step) × Small result }
{
    let own = offset.magnitude;
    let near = own.abs_diff(step);
    let far = own + step;
    if offset.negative {
        Squares {
            before: near * near,
            own: own * own,
            behind: far * far,
        }
    } else {
        Squares {
            before: far * far,
            own: own * own,
            behind: near * near,
        }
    }
}

// z raised over the nine heights round an inner point, row by row: each row has a square of its own, as in `raise_row`.
fn raise_nine(point: Point<'_>, x: Squares, y: Squares, z: u64) -> u64
    requires small { Small x × Small y × (z < 2 ^ 31) }
    ensures { LeastFrom (meets_these point.entry.map.trailer.radius (nine_from point.entry.map.bytes.now point.entry.map.trailer.width point.entry.column point.entry.row x y)) z result × (result < 2 ^ 31) }
{
    let above = raise_row(point.map, point.column, point.row - 1, x, y.before, z);
    let beside = raise_row(point.map, point.column, point.row, x, y.own, above);
    raise_row(point.map, point.column, point.row + 1, x, y.behind, beside)
}

// z of the centre at an inner point, x and y away from it, lifted.
pub fn lift(point: Point<'_>, x: Signed, y: Signed, z: u64) -> u64
    requires within_radius { (x.magnitude ≤ radius_most) × (y.magnitude ≤ radius_most) }
    requires biased { z < 2 ^ 30 }
    ensures { (lowered result ≡ lifted_over point.entry.map.trailer.radius (nine_at point.entry.map.bytes.now point.entry.map.trailer.width point.entry.map.trailer.step (centre_from point.entry.map.trailer.step point.entry.column point.entry.row x y) point.entry.column point.entry.row) (lowered z)) × (result < 2 ^ 31) }
{
    let trailer = point.map.trailer;
    let xs = squares_of(x, trailer.step);
    let ys = squares_of(y, trailer.step);
    let own = point.map.height_at(point.place());
    let nudged = nudge(z, own, xs.own + ys.own, trailer.radius);
    raise_nine(point, xs, ys, nudged)
}
