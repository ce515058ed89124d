// Numbers in lines of text, for programs that read vectors, and a pattern's digits. A number is its digits, and one byte behind them separates
// it from the next.
#![tactic(auto)]

ghost use Rattle.std.specs.Prelude.{◌≡◌, ◌≤◌, [], ◌∷◌, min, length, MatchOption};
ghost use Rattle.lines.specs.Passed.{Passed};
ghost use Rattle.lines.specs.Hex.{hex_digit, hex_of};

use std::marker::Model;

// What is left of a text.
#[derive(Drop)]
pub struct Reader<'a> {
    rest: &'a [u8],
}

impl<'a> Model for Reader<'a> {
    ghost use Rattle.std.specs.Prelude.{ℕ, List};

    ghost Value = { List ℕ };

    ghost view = { λ r. r.rest.now };
}

impl<'a> Reader<'a> {
    pub fn new(text: &'a [u8]) -> Reader<'a>
        ensures { result ≡ text.now }
    {
        Reader { rest: text }
    }

    // Takes the next byte; at the end of the text there is none.
    pub fn letter(&mut self) -> Option<u8>
        ensures { MatchOption result ((self.old ≡ []) × (self.new ≡ [])) (λ b. self.old ≡ b ∷ self.new) }
    {
        let (first, rest) = self.rest.split_first()?;
        self.rest = rest;
        Some(*first)
    }

    // Takes a number in a base up to 16. No digit gives 0, and a number above 2^32 − 1 gives 2^32 − 1.
    pub fn number(&mut self, base: u32) -> u32
        ensures { Passed self.old self.new }
    {
        self.digits(base).iter().fold(0u32, |value, b| {
            value.saturating_mul(base).saturating_add(digit(*b))
        })
    }

    // Takes a decimal number as a byte. One that is too large is 255.
    pub fn byte(&mut self) -> u8
        ensures { Passed self.old self.new }
    {
        byte(self.number(10).into())
    }

    // Takes a hexadecimal number, whose last 64 bits count.
    pub fn long(&mut self) -> u64
        ensures { Passed self.old self.new }
    {
        self.digits(16)
            .iter()
            .fold(0u64, |value, b| (value << 4) | u64::from(digit(*b)))
    }

    // Takes the digits of a base and their separator, and gives the digits.
    fn digits(&mut self, base: u32) -> &'a [u8]
        ensures { Passed self.old self.new }
    {
        let end = self.rest.iter().position(|b| base <= digit(*b));
        let (digits, behind) = self.rest.split_at(end.unwrap_or(self.rest.len()));
        self.rest = behind;
        self.letter();
        digits
    }
}

// A number as a byte; one that is too large is 255. A function beside the reader's, because its promise is about every number.
pub fn byte(x: u64) -> u8
    ensures { result ≡ min x 255 }
{
    u8::try_from(x).unwrap_or(u8::MAX)
}

// The value of a hexadecimal digit of either case, and 16 for any other byte. No Option, because one comparison with the base then tells
// digits of every base.
fn digit(b: u8) -> u32
    ensures { result ≤ 16 }
{
    char::from(b).to_digit(16).unwrap_or(16)
}

// The eight hexadecimal digits of a pattern. Not by std's `{:08X}`, because of digits made here the promise is a definition's.
pub fn hex(x: u32) -> [u8; 8]
    ensures { result ≡ hex_of x }
{
    [
        hex_digit(x / 268435456),
        hex_digit(x / 16777216),
        hex_digit(x / 1048576),
        hex_digit(x / 65536),
        hex_digit(x / 4096),
        hex_digit(x / 256),
        hex_digit(x / 16),
        hex_digit(x),
    ]
}

// The last hexadecimal digit of a number, in upper case.
fn hex_digit(x: u32) -> u8
    ensures { result ≡ hex_digit x }
{
    let d = (x % 16) as u8;
    if d < 10 { 48 + d } else { 55 + d }
}
