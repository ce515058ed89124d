// The lift of a record: its words are taken, z is lifted over the nine heights round its point, and the words are put back.
#![tactic(auto)]

ghost use Rattle.std.specs.Prelude.{◌≡◌, ◌+◌, ◌≤◌, ◌<◌, length, pos, nat_abs, ◌-ℤ◌};
ghost use Rattle.words.specs.Signed.{signed, word_of};
ghost use Rattle.words.specs.Parts.{parts_of};
ghost use Rattle.words.specs.Splice.{splice};
ghost use Rattle.cutter.specs.Limits.{radius_most};
ghost use Rattle.cutter.specs.Centre.{record_bytes};
ghost use Rattle.lift.specs.Record.{centre_of_words, centre_read, Reaches, lifted_at};

use maps::{Point, biased, unbiased};
use nine::lift;
use words::{Signed, put_word, signed_of, word_at, wrapping_add_signed};

// How far the coordinate with this word is from a place.
fn away(word: u32, place: u64) -> Signed
    requires { (place < 2147483648) × (nat_abs (signed word -ℤ pos place) ≤ radius_most) }
    ensures { (result ≡ parts_of (signed word -ℤ pos place)) × (result.magnitude ≤ radius_most) }
{
    let back = Signed {
        negative: true,
        magnitude: place,
    };
    signed_of(wrapping_add_signed(word, back))
}

// The word of z, lifted, of the centre with these words.
fn lifted_word(point: Point<'_>, x: u32, y: u32, z: u32) -> u32
    requires { Reaches point.map.trailer.step point.column point.row (centre_of_words x y z) }
    ensures { result ≡ word_of (lifted_at point.entry (centre_of_words x y z)).z }
{
    let step = point.map.trailer.step;
    let along = away(x, (point.column as u64) * step);
    let down = away(y, (point.row as u64) * step);
    let raised = lift(point, along, down, u64::from(biased(z)));
    unbiased(raised as u32)
}

// Lifts the record that stands from `at` on.
pub fn lift_record(point: Point<'_>, out: &mut [u8], at: usize)
    requires room { at + 12 ≤ length out.old }
    requires reaches { Reaches point.map.trailer.step point.column point.row (centre_read out.old at) }
    ensures { out.new ≡ splice at (record_bytes (lifted_at point.entry (centre_read out.old at))) out.old }
{
    let x = word_at(out, at);
    let y = word_at(out, at + 4);
    let z = lifted_word(point, x, y, word_at(out, at + 8));
    put_word(out, at, x as u64);
    put_word(out, at + 4, y as u64);
    put_word(out, at + 8, z as u64);
}
