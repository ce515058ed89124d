// The operations, the roundings, the rules for centres and the refusals by their cases, the flags by their bits, and the choice between two
// neighbours.
#![tactic(auto)]

ghost use Rattle.std.specs.Int.Bits.{bit_or};
ghost use Rattle.std.specs.Prelude.{◌%◌, ◌≡◌};
ghost use Rattle.kinds.specs.Operation.{op_of, is_reciprocal};
ghost use Rattle.kinds.specs.Rounding.{mode_of, number_of, away};
ghost use Rattle.kinds.specs.Refusal.{number_of as refusal_number, operation_asked, rounding_asked};
ghost use Rattle.kinds.specs.Guard.{place_of};

// Why a call is refused: the first of its questions that is answered "no", by the question's number.
#[derive(Clone, Copy, Debug, PartialEq, Eq)]
pub enum Refusal {
    Operation = 1,
    Rounding = 2,
    Significand = 3,
    Parity = 4,
    Short = 5,
    MapLetters = 6,
    Sides = 7,
    Lengths = 8,
    MapDistance = 9,
    Height = 10,
    Room = 11,
    ListLetters = 12,
    ListDistance = 13,
    Index = 14,
    Tables = 15,
    Entry = 16,
}

impl Refusal {
    pub fn number(self) -> u8
        ensures { result ≡ refusal_number self }
    {
        self as u8
    }
}

#[derive(Clone, Copy, Debug, PartialEq, Eq)]
pub enum Op {
    Reciprocal,
    Root,
    InverseRoot,
}

// Question 1, and the operation with this number.
impl TryFrom<u8> for Op {
    type Error = Refusal;

    ghost try_from_gives = { λ n r. r ≡ operation_asked n };

    fn try_from(number: u8) -> Result<Op, Refusal> {
        match number {
            1 => Ok(Op::Reciprocal),
            2 => Ok(Op::Root),
            3 => Ok(Op::InverseRoot),
            _ => Err(Refusal::Operation),
        }
    }
}

impl Op {
    // The operation with this number, once question 1 is asked; it cannot fail, and of any other number it gives the last.
    pub fn of(number: u8) -> Op
        ensures { result ≡ op_of number }
    {
        match number {
            1 => Op::Reciprocal,
            2 => Op::Root,
            _ => Op::InverseRoot,
        }
    }

    pub fn is_reciprocal(self) -> bool
        ensures { result ≡ is_reciprocal self }
    {
        matches!(self, Op::Reciprocal)
    }
}

// The rule that the centres of a list follow: the ball touches the surface at its point, or is lifted off the heights round it.
#[derive(Clone, Copy, Debug, PartialEq, Eq)]
pub enum Rule {
    Touching,
    Lifted,
}

#[derive(Clone, Copy, Debug, PartialEq, Eq)]
pub enum Mode {
    Nearest = 0,
    Up = 1,
    Down = 2,
    TowardZero = 3,
}

// Question 2, and the rounding with this number.
impl TryFrom<u8> for Mode {
    type Error = Refusal;

    ghost try_from_gives = { λ n r. r ≡ rounding_asked n };

    fn try_from(number: u8) -> Result<Mode, Refusal> {
        match number {
            0 => Ok(Mode::Nearest),
            1 => Ok(Mode::Up),
            2 => Ok(Mode::Down),
            3 => Ok(Mode::TowardZero),
            _ => Err(Refusal::Rounding),
        }
    }
}

impl Mode {
    // The rounding with this number, once question 2 is asked, likewise.
    pub fn of(number: u8) -> Mode
        ensures { result ≡ mode_of number }
    {
        match number {
            0 => Mode::Nearest,
            1 => Mode::Up,
            2 => Mode::Down,
            _ => Mode::TowardZero,
        }
    }

    // The number of a rounding.
    pub fn number(self) -> u8
        ensures { result ≡ number_of self }
    {
        self as u8
    }
}

// The bits of the flags: numbers and no enum, because several are joined in one status.
#[derive(Clone, Copy)]
pub struct Flags;

impl Flags {
    pub const INVALID: u8 = 1;

    pub const DIVISION_BY_ZERO: u8 = 2;

    pub const OVERFLOW: u8 = 4;

    pub const UNDERFLOW: u8 = 8;

    pub const INEXACT: u8 = 16;
}

// Flags joined to a status; bits that are no flag's are left out of both.
pub fn joined(status: u8, flags: u8) -> u8
    ensures { result ≡ bit_or (status % 32) (flags % 32) }
{
    (status % 32) | (flags % 32)
}

// Whether a magnitude goes to the neighbour farther from zero: `half` says that the midpoint is reached, `more` that something
// lies above what was reached, `odd` that the lower neighbour is odd.
pub fn goes_away(mode: Mode, negative: bool, odd: bool, half: bool, more: bool) -> bool
    ensures { result ≡ away mode negative odd (place_of half more) }
{
    match mode {
        Mode::Nearest => half & (more | odd),
        Mode::Up => (half | more) & !negative,
        Mode::Down => (half | more) & negative,
        Mode::TowardZero => false,
    }
}
