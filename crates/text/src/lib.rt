// The text that `platelist` prints, put into a lent buffer.
#![tactic(auto)]

ghost use Rattle.std.specs.Prelude.{◌≡◌, [], ◌∷◌, ◌++◌, ◌+◌, ◌-◌, ◌*◌, ◌≤◌, ◌<◌, length, pos};
ghost use Rattle.kinds.specs.Refusal.{number_of};
ghost use Rattle.words.specs.Joined.{joined};
ghost use Rattle.trailer.specs.Bytes.{InRange};
ghost use Rattle.trailer.specs.declared.Kind.TheVariants.{Plt1};
ghost use Rattle.cutter.specs.List.{count_of};
ghost use Rattle.cutter.specs.Accepted.{Sizes};
ghost use Rattle.decimal.specs.Put.{PutAt};
ghost use Rattle.printing.specs.Line.{line};
ghost use Rattle.printing.specs.Entries.{entry_line};
ghost use Rattle.text.specs.Text.{list_most, text_most, refused_text};
ghost use Rattle.text.specs.Call.{TextCall};

use arrayvec::ArrayString;
use decimal::put;
use kinds::Refusal;
use plate::Rounding;
use printing::{line, put_records};
use trailer::{Fields, Kind, read_last};

// Puts the text for these bytes at the front of `out`; its length. The list is made in `list`, which holds the longest one,
// 12 × 62 × 62 + 18 bytes; `out` holds a line of 48 bytes and 62 × 62 lines of 60, more than any text has.
pub fn put_text(map: &[u8], list: &mut [u8; 46146], out: &mut [u8; 230688]) -> usize
    ensures { TextCall map.now list.old out.old result list.new out.new }
{
    put_answer(map, list, out)
}

fn put_answer(map: &[u8], list: &mut [u8], out: &mut [u8]) -> usize
    requires list_most_value { list_most ≡ length list.old }
    requires text_most_in_bounds { text_most ≤ length out.old }
    ensures { TextCall map.now list.old out.old result list.new out.new }
{
    // More bytes than the longest map has, 4 × 64 × 64 + 16.
    if 16400 < map.len() {
        return put(out, 0, refused(Refusal::MapDistance).as_str());
    }
    match plate::lifted_list(Rounding::NEAREST, map, list) {
        Ok(_) => put_list(read_last(map, Kind::Plt1), list, out),
        Err(refusal) => put(out, 0, refused(refusal).as_str()),
    }
}

// `refused`, a space and the number.
fn refused(refusal: Refusal) -> ArrayString<20>
    ensures { result.bytes ≡ refused_text (number_of refusal) }
{
    let mut text = ArrayString::new();
    text.push_str("refused ");
    text.push_str(line(&[i32::from(refusal.number())]).as_str());
    text
}

// The sizes, and then a line for each record at the front of `list`.
fn put_list(trailer: Fields, list: &[u8], out: &mut [u8]) -> usize
    requires sizes { Sizes trailer.width trailer.depth }
    requires in_range { InRange Plt1 trailer }
    requires depth_in_bounds { 12 * count_of trailer.width trailer.depth ≤ length list.now }
    requires text_most_in_bounds { text_most ≤ length out.old }
    ensures { PutAt 0 text_most (line (pos trailer.width ∷ pos trailer.depth ∷ pos trailer.step ∷ pos trailer.radius ∷ []) ++ joined (entry_line list.now (trailer.width - 2)) (count_of trailer.width trailer.depth)) out.old result out.new }
{
    let sizes = line(&[
        trailer.width as i32,
        trailer.depth as i32,
        trailer.step as i32,
        trailer.radius as i32,
    ]);
    let end = put(out, 0, sizes.as_str());
    let columns = trailer.width - 2;
    put_records(out, end, list, columns, columns * (trailer.depth - 2))
}
