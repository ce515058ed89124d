// Trailers: what each kind of trailer holds, read by its place from the trailer's first byte.
#![tactic(auto)]

ghost use Rattle.std.specs.Prelude.{◌≡◌, ◌+◌, ◌≤◌, length};
ghost use Rattle.trailer.specs.Kinds.{LayoutIs, letters_refusal, length_of, radius_size, rounding_size};
ghost use Rattle.trailer.specs.Bytes.{ends_in, list_kind};
ghost use Rattle.trailer.specs.Reading.{RadiusRead, RoundingRead, TrailerRead, LastRead};

use kinds::Refusal;
use words::{half_at, reads_at, word_at};

// The trailers of maps and of lists.
#[derive(Clone, Copy, Debug, PartialEq, Eq)]
pub enum Kind {
    Plt1,
    Cut1,
    Cut2,
}

// What follows the letters: the distance from the trailer's first byte back to the first of what it describes; the sizes of the map;
// step and radius in micrometres; and the rounding, which is 0 in a kind that has none. They have the widths in which they are worked
// with, and not those of their bytes, because each would be widened at every use; and the rounding is 0 and no Option, because the
// definition of a trailer's bytes has it so.
#[derive(Clone, Copy)]
pub struct Fields {
    pub distance: u64,
    pub width: usize,
    pub depth: usize,
    pub step: u64,
    pub radius: u64,
    pub rounding: u64,
}

// What a kind fixes: its letters, its length in bytes, whether the radius has 32 bits and not 16, and whether a rounding of 16 bits
// stands last. No kind has a radius of 32 bits yet; the flag stays because the definition of a trailer has it.
#[derive(Clone, Copy)]
pub struct Layout {
    pub letters: [u8; 4],
    pub length: usize,
    pub wide: bool,
    pub rounded: bool,
}

pub fn layout_of(kind: Kind) -> Layout
    ensures { LayoutIs kind result }
{
    match kind {
        Kind::Plt1 => Layout {
            letters: *b"PLT1",
            length: 16,
            wide: false,
            rounded: false,
        },
        Kind::Cut1 => Layout {
            letters: *b"CUT1",
            length: 16,
            wide: false,
            rounded: false,
        },
        Kind::Cut2 => Layout {
            letters: *b"CUT2",
            length: 18,
            wide: false,
            rounded: true,
        },
    }
}

// Why bytes that end in other letters are refused.
pub fn letters_refusal(kind: Kind) -> Refusal
    ensures { result ≡ letters_refusal kind }
{
    match kind {
        Kind::Plt1 => Refusal::MapLetters,
        Kind::Cut1 | Kind::Cut2 => Refusal::ListLetters,
    }
}

// How many bytes a trailer of a kind has.
pub fn length_of(kind: Kind) -> usize
    ensures { result ≡ length_of kind }
{
    let layout = layout_of(kind);
    layout.length
}

// How many bytes a radius has.
pub fn radius_size(wide: bool) -> usize
    ensures { result ≡ radius_size wide }
{
    if wide { 4 } else { 2 }
}

fn read_radius(bytes: &[u8], at: usize, wide: bool) -> u64
    requires { at + radius_size wide ≤ length bytes.now }
    ensures { RadiusRead wide bytes.now at result }
{
    if wide {
        u64::from(word_at(bytes, at))
    } else {
        u64::from(half_at(bytes, at))
    }
}

fn read_rounding(bytes: &[u8], at: usize, rounded: bool) -> u64
    requires { at + rounding_size rounded ≤ length bytes.now }
    ensures { RoundingRead rounded bytes.now at result }
{
    if rounded {
        u64::from(half_at(bytes, at))
    } else {
        0
    }
}

// The fields of the trailer of a kind whose first byte stands at `at`.
#[tactic(auto, unfolding(crate::specs::Bytes::fields_at))]
fn read(bytes: &[u8], at: usize, kind: Kind) -> Fields
    requires { at + length_of kind ≤ length bytes.now }
    ensures { TrailerRead kind bytes.now at result }
{
    let layout = layout_of(kind);
    let radius = read_radius(bytes, at + 14, layout.wide);
    let rounding = read_rounding(bytes, at + (14 + radius_size(layout.wide)), layout.rounded);
    Fields {
        distance: u64::from(word_at(bytes, at + 4)),
        width: half_at(bytes, at + 8) as usize,
        depth: half_at(bytes, at + 10) as usize,
        step: u64::from(half_at(bytes, at + 12)),
        radius,
        rounding,
    }
}

// The fields of the trailer of a kind that the bytes end in.
#[tactic(auto, unfolding(crate::specs::Bytes::last_fields))]
pub fn read_last(bytes: &[u8], kind: Kind) -> Fields
    requires { length_of kind ≤ length bytes.now }
    ensures { LastRead kind bytes.now result }
{
    let layout = layout_of(kind);
    read(bytes, bytes.len() - layout.length, kind)
}

// Whether the bytes end in a trailer of a kind, by its letters.
#[tactic(auto, unfolding(crate::specs::Bytes::ends_in))]
pub fn ends_in(bytes: &[u8], kind: Kind) -> bool
    ensures { result ≡ ends_in kind bytes.now }
{
    let layout = layout_of(kind);
    let end = bytes.len();
    layout.length <= end && reads_at(bytes, end - layout.length, layout.letters)
}

// The kind of a list by its trailer: CUT1 where its letters stand, and CUT2 otherwise, whether its own do or not.
#[tactic(auto, unfolding(crate::specs::Bytes::list_kind))]
pub fn list_kind(bytes: &[u8]) -> Kind
    ensures { result ≡ list_kind bytes.now }
{
    let first = ends_in(bytes, Kind::Cut1);
    if first { Kind::Cut1 } else { Kind::Cut2 }
}
