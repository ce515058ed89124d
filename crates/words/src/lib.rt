// Little-endian numbers and letters in bytes, read and put, and signed numbers in unsigned code.
#![tactic(auto)]

ghost use Rattle.std.specs.Prelude.{◌≡◌, ◌+◌, ◌≤◌, ◌<◌, length, ◌+ℤ◌};
ghost use Rattle.words.specs.Word.{half_at, word_at, half_bytes, word_bytes, reads_at};
ghost use Rattle.words.specs.Splice.{splice};
ghost use Rattle.words.specs.Signed.{signed, word_of, with_sign};
ghost use Rattle.words.specs.Parts.{parts_of};

// The number of the two bytes from `at` on, the lower first. A place in the whole bytes and no part of them, here and below, because the
// definitions (`half_at`, `splice`) and the promises made of them say where in the whole something stands.
pub fn half_at(s: &[u8], at: usize) -> u16
    requires { at + 2 ≤ length s.now }
    ensures { result ≡ half_at s.now at }
{
    u16::from_le_bytes([s[at], s[at + 1]])
}

// The number of the four bytes from `at` on, the lowest first.
pub fn word_at(s: &[u8], at: usize) -> u32
    requires { at + 4 ≤ length s.now }
    ensures { result ≡ word_at s.now at }
{
    u32::from_le_bytes([s[at], s[at + 1], s[at + 2], s[at + 3]])
}

// Whether the four bytes from `at` on are those of a name.
pub fn reads_at(s: &[u8], at: usize, name: [u8; 4]) -> bool
    requires { at + 4 ≤ length s.now }
    ensures { result ≡ reads_at s.now at name }
{
    [s[at], s[at + 1], s[at + 2], s[at + 3]] == name
}

// Puts so many bytes over those from `at` on: letters, or the bytes of a number, the lowest first.
pub fn put<const N: usize>(out: &mut [u8], at: usize, bytes: [u8; N])
    requires { at + N ≤ length out.old }
    ensures { out.new ≡ splice at bytes.entry out.old }
{
    out[at..at + N].copy_from_slice(&bytes);
}

// Puts the two bytes of a number over those from `at` on, the lower first. The number is any u64, here and below, because the promise
// speaks of every number: a u16 would ask more of callers.
pub fn put_half(out: &mut [u8], at: usize, x: u64)
    requires { at + 2 ≤ length out.old }
    ensures { out.new ≡ splice at (half_bytes x) out.old }
{
    put(out, at, ((x % 65536) as u16).to_le_bytes());
}

// Puts the four bytes of a number over those from `at` on, the lowest first.
pub fn put_word(out: &mut [u8], at: usize, x: u64)
    requires { at + 4 ≤ length out.old }
    ensures { out.new ≡ splice at (word_bytes x) out.old }
{
    put(out, at, ((x % 4294967296) as u32).to_le_bytes());
}

// A signed number by its sign and its magnitude. Not an i32, because an offset that rounds to 0 keeps the sign of its component; a 0 that
// is read is not negative.
#[derive(Clone, Copy)]
pub struct Signed {
    pub negative: bool,
    pub magnitude: u64,
}

// The signed number that a word stands for.
pub fn signed_of(word: u32) -> Signed
    ensures { (result ≡ parts_of (signed word)) × (result.magnitude ≤ 2147483648) }
{
    parts_of(i32_of(word))
}

// The same as a number of the language: its `cast_signed`, told by the definition of a word's number.
pub fn i32_of(word: u32) -> i32
    ensures { result ≡ signed word }
{
    word.cast_signed()
}

// The sign and the magnitude of a number of the language.
pub fn parts_of(x: i32) -> Signed
    ensures { result ≡ parts_of x }
{
    Signed {
        negative: x < 0,
        magnitude: u64::from(x.unsigned_abs()),
    }
}

// The word of a word's number with a signed number added. Not std's method of this name, because an i32 would be made of the sign and the
// magnitude only to be added.
pub fn wrapping_add_signed(u: u32, s: Signed) -> u32
    requires { s.magnitude < 2147483648 }
    ensures { result ≡ word_of (signed u +ℤ with_sign s.negative s.magnitude) }
{
    let m = s.magnitude as u32;
    if s.negative {
        u.wrapping_sub(m)
    } else {
        u.wrapping_add(m)
    }
}
