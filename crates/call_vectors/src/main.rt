// Reads lines of calls, and writes for each what the call gives. A line of the raw call is r, operation, significand and parity, and gives
// refusal and answer; one of the binary32 call is b, operation, rounding, bits and status, and gives refusal, bits and status. Bits are
// hexadecimal, and all other numbers decimal.
#![tactic(auto)]

ghost use Rattle.std.specs.Prelude.{◌≤◌, length};
ghost use Rattle.std.specs.Iterator.{at_most};

use input::read_full;
use lines::{Reader, hex};
use plate::{Operation, Rounding, Status};
use std::io::Result;

fn main(rt: HostRuntime) -> Result<()> {
    // A fixed buffer, because the program reads so many bytes of a longer input and no more.
    let mut text = [0u8; 262144];
    let n = read_full(&mut rt.stdin(), &mut text)?;
    answer_all(&rt, Calls(Reader::new(&text[..n])))
}

fn answer_all(rt: &impl Print, calls: Calls) -> Result<()> {
    for call in calls {
        call.answer(rt)?;
    }
    Ok(())
}

// What a line asks.
#[derive(Clone, Copy)]
enum Call {
    Raw {
        operation: Operation,
        significand: u32,
        parity: u8,
    },
    Binary32 {
        operation: Operation,
        rounding: Rounding,
        bits: u32,
        status: Status,
    },
}

// The calls of a text, line by line. `binary64_vectors` has its own, because its lines are others: they share the reader.
#[derive(Drop)]
struct Calls<'a>(Reader<'a>);

impl Iterator for Calls<'_> {
    type Item = Call;

    ghost remaining = { λ calls. at_most (length calls.0) };

    fn next(&mut self) -> Option<Call> {
        let text = &mut self.0;
        let letter = text.letter()?;
        text.letter();
        Some(if letter == b'r' {
            Call::raw(text)
        } else {
            Call::binary32(text)
        })
    }
}

impl Call {
    // Takes the operands.
    fn raw(text: &mut Reader) -> Call
        ensures { length text.new ≤ length text.old }
    {
        Call::Raw {
            operation: Operation(text.byte()),
            significand: text.number(10),
            parity: text.byte(),
        }
    }

    fn binary32(text: &mut Reader) -> Call
        ensures { length text.new ≤ length text.old }
    {
        Call::Binary32 {
            operation: Operation(text.byte()),
            rounding: Rounding(text.byte()),
            bits: text.number(16),
            status: Status { flags: text.byte() },
        }
    }

    // Makes the call, and writes a line of what it gives.
    fn answer(self, rt: &impl Print) -> Result<()> {
        match self {
            Call::Raw {
                operation,
                significand,
                parity,
            } => match plate::raw(operation, significand, parity) {
                Ok(answer) => println!(rt; "0 {answer}"),
                Err(refusal) => println!(rt; "{} 0", refusal.number()),
            },
            Call::Binary32 {
                operation,
                rounding,
                bits,
                status,
            } => {
                let reply = plate::binary32(operation, rounding, bits, status);
                let flags = reply.status.flags;
                match reply.answer {
                    Ok(answer) => println!(rt; "0 {} {flags}", text_of(&hex(answer))),
                    Err(refusal) => println!(rt; "{} 00000000 {flags}", refusal.number()),
                }
            }
        }
    }
}

// Digits as text, to be printed with their line at once.
fn text_of(digits: &[u8]) -> &str {
    str::from_utf8(digits).unwrap_or("")
}
