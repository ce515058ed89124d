// Reading a list back: the record call, the questions that the list's bytes are asked, and then an index; and the numbers of a record.
#![tactic(auto)]

ghost use Rattle.std.specs.Prelude.{◌≡◌, ◌+◌, ◌*◌, ◌≤◌, ◌<◌, length};
ghost use Rattle.kinds.specs.Refusal.{rounding_asked};
ghost use Rattle.cutter.specs.List.{entry_at};
ghost use Rattle.reader.specs.Record.{record_asked};

use kinds::{Mode, Refusal};
use sizes::{count, is_whole, read_trailer};
use trailer::{layout_of, list_kind};
use words::{i32_of, word_at};

// What the record call gives back: the rounding that the list's trailer states, if it states one, the trailer's sizes and the record's
// coordinates.
#[derive(Clone, Copy)]
pub struct Record {
    pub rounding: Option<Mode>,
    pub width: u32,
    pub depth: u32,
    pub step: u32,
    pub radius: u32,
    pub x: i32,
    pub y: i32,
    pub z: i32,
}

// The record call: questions 5, 12, 7, 8, 13, 2 and 14, and then the reading.
pub fn call(list: &[u8], index: usize) -> Result<Record, Refusal>
    ensures { result ≡ record_asked list.now index }
{
    let kind = list_kind(list);
    let trailer = read_trailer(list, kind)?;
    let records = count(trailer.width, trailer.depth);
    if !is_whole(kind, 12 * records, trailer.distance, list.len()) {
        return Err(Refusal::ListDistance);
    }
    let mode = rounding(trailer.rounding)?;
    if records <= index {
        return Err(Refusal::Index);
    }
    let layout = layout_of(kind);
    Ok(Record {
        rounding: layout.rounded.then_some(mode),
        width: trailer.width as u32,
        depth: trailer.depth as u32,
        step: trailer.step as u32,
        radius: trailer.radius as u32,
        x: entry(list, index, 0),
        y: entry(list, index, 1),
        z: entry(list, index, 2),
    })
}

// Question 2 of the number that a trailer states. By cases and not by `?`, because a number that is no byte gets the refusal of one that is
// no rounding.
fn rounding(number: u64) -> Result<Mode, Refusal>
    ensures { result ≡ rounding_asked number }
{
    match u8::try_from(number) {
        Ok(number) => Mode::try_from(number),
        Err(_) => Err(Refusal::Rounding),
    }
}

// The x, y or z (j is 0, 1 or 2) of the record at an index, by its place and not by pieces of 12 bytes, because the definition (`entry_at`)
// says the place.
pub fn entry(list: &[u8], index: usize, j: usize) -> i32
    requires { (12 * index + 12 ≤ length list.now) × (j < 3) }
    ensures { result ≡ entry_at list.now index j }
{
    i32_of(word_at(list, 12 * index + 4 * j))
}
