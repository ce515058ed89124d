// The list call of a rule: its questions, and the list of a map, the cutter's centres at its inner points, put at the front of a lent
// buffer.
#![tactic(auto)]

ghost use Rattle.std.specs.Prelude.{◌≡◌, ◌≤◌, length};
ghost use Rattle.words.specs.Splice.{splice};
ghost use Rattle.cutter.specs.List.{list_length, list_bytes};
ghost use Rattle.cutter.specs.Call.{list_asked, buffer_after};
ghost use Rattle.kinds.specs.Rounding.{number_of};

use ending::put;
use kinds::{Mode, Refusal, Rule};
use maps::Map;
use rows::put_points;
use sizes::records_length;
use trailer::{Fields, Kind, length_of};

// The list call: the questions about the map and the buffer first; then the list, and the bytes behind it are kept. After a refusal the
// buffer holds what it held.
pub fn call(rule: Rule, mode: Mode, map: &[u8], buffer: &mut [u8]) -> Result<usize, Refusal>
    ensures value { result ≡ list_asked map.now (length buffer.old) }
    ensures buffer_after { buffer.new ≡ buffer_after rule (number_of mode) map.now buffer.old }
{
    let map = Map::new(map)?;
    map.fits(buffer.len())?;
    Ok(put_list(rule, mode, map, buffer))
}

// The list of an accepted map, put at the front of the buffer; its length.
fn put_list(rule: Rule, mode: Mode, map: Map<'_>, out: &mut [u8]) -> usize
    requires { list_length map.bytes.now ≤ length out.old }
    ensures { (result ≡ list_length map.entry.bytes.now) × (out.new ≡ splice 0 (list_bytes rule mode map.entry.bytes.now) out.old) }
{
    let trailer = map.trailer;
    put_points(rule, mode, map, out);
    let end = records_length(trailer.width, trailer.depth);
    let rounding = mode.number() as u64;
    let fields = Fields {
        distance: end as u64,
        width: trailer.width,
        depth: trailer.depth,
        step: trailer.step,
        radius: trailer.radius,
        rounding,
    };
    put(out, end, Kind::Cut2, fields);
    end + length_of(Kind::Cut2)
}
