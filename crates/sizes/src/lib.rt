// The questions that a map and a list are asked alike, about the trailer that they end in, and the length of a list by its sizes.
#![tactic(auto)]

ghost use Rattle.std.specs.Prelude.{◌≡◌, ◌*◌, ◌≤◌, IfOk};
ghost use Rattle.cutter.specs.List.{count_of};
ghost use Rattle.cutter.specs.Sizes.{is_sized, is_stepped, trailer_asked, is_whole};
ghost use Rattle.cutter.specs.Accepted.{Sizes, TrailerHeld};

use kinds::Refusal;
use trailer::{Fields, Kind, ends_in, length_of, letters_refusal, read_last};

// The limits of a trailer's numbers; lengths are micrometres.
const BYTES_LEAST: usize = 16;

const SIDE_LEAST: usize = 3;

const SIDE_MOST: usize = 64;

const STEP_MOST: u64 = 10000;

const RADIUS_MOST: u64 = 12500;

// Questions 5, 6 or 12 by the kind, 7 and 8, and where each is answered "yes" the fields of the trailer.
pub fn read_trailer(bytes: &[u8], kind: Kind) -> Result<Fields, Refusal>
    ensures value { result ≡ trailer_asked kind bytes.now }
    ensures held { IfOk result (λ t. TrailerHeld kind bytes.now t) }
{
    if bytes.len() < BYTES_LEAST {
        return Err(Refusal::Short);
    }
    if !ends_in(bytes, kind) {
        return Err(letters_refusal(kind));
    }
    let trailer = read_last(bytes, kind);
    if !sizes_hold(trailer.width, trailer.depth) {
        return Err(Refusal::Sides);
    }
    if !steps_hold(trailer.step, trailer.radius) {
        return Err(Refusal::Lengths);
    }
    Ok(trailer)
}

// Both ends are compared as in the definition, here and below; `contains` would be no plainer.
fn sizes_hold(width: usize, depth: usize) -> bool
    ensures { result ≡ is_sized width depth }
{
    ((SIDE_LEAST <= width) & (width <= SIDE_MOST)) & ((SIDE_LEAST <= depth) & (depth <= SIDE_MOST))
}

fn steps_hold(step: u64, radius: u64) -> bool
    ensures { result ≡ is_stepped step radius }
{
    ((1 <= step) & (step <= STEP_MOST)) & ((1 <= radius) & (radius <= RADIUS_MOST))
}

// Whether the bytes before a trailer are as many as its sizes ask for, and the distance back says so.
pub fn is_whole(kind: Kind, before: usize, distance: u64, length: usize) -> bool
    requires { before ≤ 46128 }
    ensures { result ≡ is_whole kind before distance length }
{
    (distance == before as u64) & (length == before + length_of(kind))
}

// How many records a list of these sizes has. Two numbers and no struct, because callers have them in a trailer with other fields: a struct
// of two would be made for each call and taken apart in it.
pub fn count(width: usize, depth: usize) -> usize
    requires { Sizes width depth }
    ensures { (result ≡ count_of width depth) × (result ≤ 3844) }
{
    (width - 2) * (depth - 2)
}

// How many bytes they have.
pub fn records_length(width: usize, depth: usize) -> usize
    requires { Sizes width depth }
    ensures { (result ≡ 12 * count_of width depth) × (result ≤ 46128) }
{
    12 * count(width, depth)
}
