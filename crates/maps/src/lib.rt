// Reading a map: the questions that are asked of it and of the lent buffer, and its heights.
#![tactic(auto)]

ghost use Rattle.std.specs.Prelude.{◌≡◌, ◌+◌, ◌*◌, ◌%◌, ◌≤◌, ◌<◌, length, leb, nat_abs, IfOk};
ghost use Rattle.std.proofs.Math.IntN.{sub_ℕ};
ghost use Rattle.words.specs.Word.{word_at};
ghost use Rattle.words.specs.Signed.{signed, word_of};
ghost use Rattle.cutter.specs.Limits.{height_most, difference_most};
ghost use Rattle.kinds.specs.Refusal.{asked};
ghost use Rattle.kinds.specs.declared.Refusal.TheVariants.{Room};
ghost use Rattle.cutter.specs.Call.{heights_within, has_room, map_asked};
ghost use Rattle.cutter.specs.Map.{Inner};
ghost use Rattle.cutter.specs.Accepted.{Ready, Heights};

use kinds::Refusal;
use sizes::{is_whole, read_trailer, records_length};
use trailer::{Fields, Kind, length_of};
use words::word_at;

// A height is from −50,000 to 50,000 micrometres.
const HEIGHT_MOST: u32 = 50000;

// A map whose questions are answered "yes": its bytes, and the fields of its trailer.
#[derive(Clone, Copy)]
pub struct Map<'a> {
    pub bytes: &'a [u8],
    pub trailer: Fields,
    ghost ready: { Ready bytes.now trailer },
}

impl<'a> Map<'a> {
    ghost use Rattle.maps.specs.Map.{trailer_in};

    // Questions 5 to 10, and where each is answered "yes" the map that the bytes are.
    pub fn new(bytes: &'a [u8]) -> Result<Map<'a>, Refusal>
        ensures value { trailer_in result ≡ map_asked bytes.now }
        ensures lent { IfOk result (λ m. m.bytes.now ≡ bytes.now) }
    {
        let trailer = read_trailer(bytes, Kind::Plt1)?;
        let count = trailer.width * trailer.depth;
        if !is_whole(Kind::Plt1, 4 * count, trailer.distance, bytes.len()) {
            return Err(Refusal::MapDistance);
        }
        if !heights_hold(bytes, count) {
            return Err(Refusal::Height);
        }
        Ok(Map { bytes, trailer })
    }

    // Question 11, of a lent buffer with room for so many bytes.
    pub fn fits(self, room: usize) -> Result<(), Refusal>
        ensures { result ≡ asked (has_room self.entry.bytes.now room) Room tt }
    {
        if room < records_length(self.trailer.width, self.trailer.depth) + length_of(Kind::Cut2) {
            return Err(Refusal::Room);
        }
        Ok(())
    }

    // The word of the height at place i, counted row by row.
    pub fn height_word(self, i: usize) -> u32
        requires { i < self.trailer.width * self.trailer.depth }
        ensures { result ≡ word_at self.entry.bytes.now (4 * i) }
    {
        word_at(self.bytes, 4 * i)
    }

    // The same height with the bias.
    pub fn height_at(self, i: usize) -> u64
        requires { i < self.trailer.width * self.trailer.depth }
        ensures { (sub_ℕ result height_most ≡ signed (word_at self.entry.bytes.now (4 * i))) × (result ≤ difference_most) }
    {
        height_at(self.bytes, i, self.trailer.width * self.trailer.depth)
    }
}

// An inner point of a map: it has four neighbours.
#[derive(Clone, Copy)]
pub struct Point<'a> {
    pub map: Map<'a>,
    pub column: usize,
    pub row: usize,
    ghost inner: { Inner map.trailer.width map.trailer.depth column row },
}

impl<'a> Point<'a> {
    // The place of its height.
    pub fn place(self) -> usize
        ensures { result ≡ self.entry.row * self.entry.map.trailer.width + self.entry.column }
    {
        self.row * self.map.trailer.width + self.column
    }
}

// Whether each of the first `count` heights is in its range.
fn heights_hold(map: &[u8], count: usize) -> bool
    requires { 4 * count ≤ length map.now }
    ensures { result ≡ heights_within map.now count }
{
    let (heights, _) = map.as_chunks::<4>();
    let mut hold = true;
    for h in &heights[..count] {
        hold &= height_holds(h);
    }
    hold
}

fn height_holds(bytes: &[u8; 4]) -> bool
    ensures { result ≡ leb (nat_abs (signed (word_at bytes.now 0))) height_most }
{
    i32::from_le_bytes(*bytes).unsigned_abs() <= HEIGHT_MOST
}

// The height at place i with the bias, of bytes that hold so many heights: a function beside the map's, because it asks for heights alone and
// for no trailer.
#[inline(always)]
pub fn height_at(map: &[u8], i: usize, count: usize) -> u64
    requires i_lt_count { i < count }
    requires heights { Heights map.now count }
    ensures { (sub_ℕ result height_most ≡ signed (word_at map.now (4 * i))) × (result ≤ difference_most) }
{
    u64::from(biased(word_at(map, 4 * i)))
}

// A height's word with a bias, so that heights are from 0 to 100,000: the lift takes unsigned squares and differences that stop at 0, where
// an i32 would be turned into both at each of nine heights.
pub fn biased(u: u32) -> u32
    ensures { result ≡ (u + height_most) % 4294967296 }
{
    u.wrapping_add(HEIGHT_MOST)
}

// The word of a height with the bias.
pub fn unbiased(u: u32) -> u32
    ensures { result ≡ word_of (sub_ℕ u height_most) }
{
    u.wrapping_sub(HEIGHT_MOST)
}
