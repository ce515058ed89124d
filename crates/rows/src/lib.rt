// The records of a map's inner points, put row by row, and lifted where the rule asks for it.
#![tactic(auto)]

ghost use Rattle.std.specs.Prelude.{◌≡◌, ◌+◌, ◌-◌, ◌*◌, ◌≤◌, ◌<◌, length};
ghost use Rattle.words.specs.Splice.{splice};
ghost use Rattle.words.specs.Joined.{joined};
ghost use Rattle.cutter.specs.List.{count_of, record_at};
ghost use Rattle.kinds.specs.declared.Rule.TheVariants.{Touching};
ghost use Rattle.centres.specs.Prepared.{RowHeld};
ghost use Rattle.rows.specs.Row.{row_bytes, lifted_record, RowReaches};

use centres::{Prepared, prepare, put_point};
use kinds::{Mode, Rule};
use lift::lift_record;
use maps::{Map, Point};

// The records of all inner points, row by row, from the front on: a row is prepared first, which knows no rounding.
pub fn put_points(rule: Rule, mode: Mode, map: Map<'_>, out: &mut [u8])
    requires room { 12 * count_of map.trailer.width map.trailer.depth ≤ length out.old }
    ensures { out.new ≡ splice 0 (joined (record_at rule mode map.entry.bytes.now) (count_of map.entry.trailer.width map.entry.trailer.depth)) out.old }
{
    let mut held = [Prepared::none(); 62];
    for row in 0..map.trailer.depth - 2 {
        let row = Row { map, row };
        prepare_row(row, &mut held);
        put_row_by(rule, mode, row, &held, out);
    }
}

// A row of a map's inner points; rows and points are counted from 0.
#[derive(Clone, Copy)]
struct Row<'a> {
    map: Map<'a>,
    row: usize,
    ghost below: { row < map.trailer.depth - 2 },
}

impl<'a> Row<'a> {
    // How many inner points it has.
    fn count(self) -> usize
        ensures { result ≡ self.entry.map.trailer.width - 2 }
    {
        self.map.trailer.width - 2
    }

    // Where its records begin in a list.
    fn first(self) -> usize
        ensures { result ≡ self.entry.row * (12 * (self.entry.map.trailer.width - 2)) }
    {
        self.row * (12 * self.count())
    }

    fn point(self, n: usize) -> Point<'a>
        requires { n < self.map.trailer.width - 2 }
        ensures { (result.map ≡ self.entry.map) × (result.column ≡ n + 1) × (result.row ≡ self.entry.row + 1) }
    {
        Point {
            map: self.map,
            column: n + 1,
            row: self.row + 1,
        }
    }
}

// Prepares the inner points of a row.
fn prepare_row(row: Row<'_>, held: &mut [Prepared])
    requires { row.map.trailer.width - 2 ≤ length held.old }
    ensures { RowHeld row.entry.map.bytes.now row.entry.map.trailer row.entry.row (row.entry.map.trailer.width - 2) held.new }
{
    for n in 0..row.count() {
        held[n] = prepare(row.point(n));
    }
}

// The records of one row, behind those of the rows before it, by a rule. The prepared points go beside the row, because the row is what they
// are prepared of and what is lifted without them; by cases, so that each rule is named.
fn put_row_by(rule: Rule, mode: Mode, row: Row<'_>, held: &[Prepared], out: &mut [u8])
    requires room { 12 * count_of row.map.trailer.width row.map.trailer.depth ≤ length out.old }
    requires places { row.map.trailer.width - 2 ≤ length held.now }
    requires row_held { RowHeld row.map.bytes.now row.map.trailer row.row (row.map.trailer.width - 2) held.now }
    ensures { out.new ≡ splice (row.entry.row * (12 * (row.entry.map.trailer.width - 2))) (row_bytes rule mode row.entry.map.bytes.now (row.entry.map.trailer.width - 2) row.entry.row) out.old }
{
    put_row(mode, row, held, out);
    match rule {
        Rule::Touching => {}
        Rule::Lifted => lift_row(row, out),
    }
}

// The records of a row before the lift. Each rounding has a loop of its own, as nothing else is in it.
fn put_row(mode: Mode, row: Row<'_>, held: &[Prepared], out: &mut [u8])
    requires room { 12 * count_of row.map.trailer.width row.map.trailer.depth ≤ length out.old }
    requires places { row.map.trailer.width - 2 ≤ length held.now }
    requires row_held { RowHeld row.map.bytes.now row.map.trailer row.row (row.map.trailer.width - 2) held.now }
    ensures { out.new ≡ splice (row.entry.row * (12 * (row.entry.map.trailer.width - 2))) (row_bytes Touching mode row.entry.map.bytes.now (row.entry.map.trailer.width - 2) row.entry.row) out.old }
{
    match mode {
        Mode::Nearest => put_row_at(Mode::Nearest, row, held, out),
        Mode::Up => put_row_at(Mode::Up, row, held, out),
        Mode::Down => put_row_at(Mode::Down, row, held, out),
        Mode::TowardZero => put_row_at(Mode::TowardZero, row, held, out),
    }
}

#[inline(always)]
fn put_row_at(mode: Mode, row: Row<'_>, held: &[Prepared], out: &mut [u8])
    requires room { 12 * count_of row.map.trailer.width row.map.trailer.depth ≤ length out.old }
    requires places { row.map.trailer.width - 2 ≤ length held.now }
    requires row_held { RowHeld row.map.bytes.now row.map.trailer row.row (row.map.trailer.width - 2) held.now }
    ensures { out.new ≡ splice (row.entry.row * (12 * (row.entry.map.trailer.width - 2))) (row_bytes Touching mode row.entry.map.bytes.now (row.entry.map.trailer.width - 2) row.entry.row) out.old }
{
    let first = row.first();
    for n in 0..row.count() {
        let p = held[n];
        put_point(mode, row.point(n), p, out, first + n * 12);
    }
}

// Lifts the records of a row.
fn lift_row(row: Row<'_>, out: &mut [u8])
    requires room { 12 * count_of row.map.trailer.width row.map.trailer.depth ≤ length out.old }
    requires row_reaches { RowReaches row.map.trailer row.row out.old }
    ensures { out.new ≡ splice (row.entry.row * (12 * (row.entry.map.trailer.width - 2))) (joined (lifted_record row.entry.map.bytes.now row.entry.map.trailer row.entry.row out.old) (row.entry.map.trailer.width - 2)) out.old }
{
    let first = row.first();
    for n in 0..row.count() {
        lift_record(row.point(n), out, first + n * 12);
    }
}
