// Numbers as decimal text, put behind a text or into bytes.
#![tactic(auto)]

ghost use Rattle.std.specs.Prelude.{◌≡◌, [], ◌∷◌, ◌++◌, ◌+◌, ◌≤◌, ◌<◌, length};
ghost use Rattle.decimal.specs.Digits.{decimal, sign, signed_decimal};
ghost use Rattle.decimal.specs.Put.{PutAt};

use arrayvec::ArrayString;
use itoa::Buffer;
use words::Signed;

// Puts a number behind a text, and then what stands behind the number.
pub fn push_number<const N: usize>(text: &mut ArrayString<N>, x: i64, behind: &str)
    requires { length text.old.bytes + length (signed_decimal x) + length behind.now ≤ N }
    ensures { text.new.bytes ≡ text.old.bytes ++ signed_decimal x ++ behind.now }
{
    let mut buffer = Buffer::new();
    let digits = buffer.format(x);
    text.push_str(digits);
    text.push_str(behind);
}

// Puts a whole number of at most ten digits from `at` on, and a byte behind it; the place behind both.
pub fn put_number(out: &mut [u8], at: usize, z: Signed, behind: u8) -> usize
    requires { (at + 12 ≤ length out.old) × (z.magnitude < 10000000000) }
    ensures { PutAt at 12 (sign z.negative ++ decimal z.magnitude ++ behind ∷ []) out.old result out.new }
{
    let first = put_sign(out, at, z.negative);
    let end = put_digits(out, first, z.magnitude);
    out[end] = behind;
    end + 1
}

// Puts a minus sign at `at`, or nothing; the place behind it.
fn put_sign(out: &mut [u8], at: usize, negative: bool) -> usize
    requires { at + 1 ≤ length out.old }
    ensures { PutAt at 1 (sign negative) out.old result out.new }
{
    if negative {
        out[at] = b'-';
        return at + 1;
    }
    at
}

// Puts the digits of a number from `at` on; the place behind them.
pub fn put_digits(out: &mut [u8], at: usize, x: u64) -> usize
    requires { at + length (decimal x) ≤ length out.old }
    ensures { PutAt at (length (decimal x)) (decimal x) out.old result out.new }
{
    let mut buffer = Buffer::new();
    let text = buffer.format(x);
    put(out, at, text)
}

// Puts a text from `at` on; the place behind it. The buffer is lent and there is no heap, so the place goes from text to text.
pub fn put(out: &mut [u8], at: usize, text: &str) -> usize
    requires { at + length text.now ≤ length out.old }
    ensures { PutAt at (length text.now) text.now out.old result out.new }
{
    let end = at + text.len();
    out[at..end].copy_from_slice(text.as_bytes());
    end
}
