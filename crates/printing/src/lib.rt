// The lines of a list as text, and put into a lent buffer.
#![tactic(auto)]

ghost use Rattle.std.specs.Prelude.{◌≡◌, [], ◌∷◌, ◌+◌, ◌*◌, ◌≤◌, ◌<◌, length};
ghost use Rattle.words.specs.Joined.{joined};
ghost use Rattle.decimal.specs.Put.{PutAt};
ghost use Rattle.printing.specs.Line.{line};
ghost use Rattle.printing.specs.Entries.{entry_line};

use arrayvec::ArrayString;
use decimal::{push_number, put};
use reader::entry;

// Puts a line for each of so many records of a map with so many inner columns, from `start` on; the place behind them.
pub fn put_records(out: &mut [u8], start: usize, list: &[u8], columns: usize, count: usize) -> usize
    requires columns_nonzero { (0 < columns) × (count < 1000000000) }
    requires count_in_bounds { 12 * count ≤ length list.now }
    requires count_in_bounds_2 { start + 60 * count ≤ length out.old }
    ensures { PutAt start (60 * count) (joined (entry_line list.now columns) count) out.old result out.new }
{
    let mut at = start;
    for n in 0..count {
        at = put(out, at, record_line(list, columns, n).as_str());
    }
    at
}

// Column, row, x, y and z of record n.
fn record_line(list: &[u8], columns: usize, n: usize) -> ArrayString<60>
    requires columns_nonzero { (0 < columns) × (n < 1000000000) }
    requires n_in_bounds { 12 * n + 12 ≤ length list.now }
    ensures { result.bytes ≡ entry_line list.now columns n }
{
    let column = (n % columns + 1) as i32;
    let row = (n / columns + 1) as i32;
    let x = entry(list, n, 0);
    let y = entry(list, n, 1);
    let z = entry(list, n, 2);
    line(&[column, row, x, y, z])
}

// A line of up to five numbers.
pub fn line(numbers: &[i32]) -> ArrayString<60>
    requires { (0 < length numbers.now) × (length numbers.now ≤ 5) }
    ensures text { result.bytes ≡ line numbers.now }
    ensures short { length result.bytes ≤ 12 * length numbers.now }
{
    let mut text = ArrayString::new();
    let (last, others) = numbers.split_last().unwrap();
    for x in others {
        push_number(&mut text, i64::from(*x), " ");
    }
    push_number(&mut text, i64::from(*last), "\n");
    text
}
