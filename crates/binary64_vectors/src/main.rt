// Reads lines of calls that take lent tables, and writes for each what the call gives. Entries, significands, bits and raw answers are
// hexadecimal, and all other numbers decimal.
//
// t LENGTH is the filling call on the first numbers of a slice in which number j holds 7j + 3, and gives refusal and digest of the whole
// slice after it. r LENGTH PLACE ENTRY, operation, significand and parity is the raw call, and gives refusal and answer; b LENGTH PLACE
// ENTRY, operation, rounding, bits and status is the binary64 call, and gives refusal, bits and status. These two are lent the first
// numbers of the filled tables and a 0 behind them, in which the number at the place, if there is one, is the entry for this call.
#![tactic(auto)]

ghost use Rattle.std.specs.Prelude.{◌≡◌, ◌≤◌, ◌/◌, ◌%◌, length, slice_index, slice_set};
ghost use Rattle.std.specs.Iterator.{at_most};

use input::{digested, read_full};
use lines::{Reader, hex};
use plate::{Operation, Refusal, Rounding, Status, TABLES};
use std::{io, mem};

// The most bytes of text.
const SIZE: usize = 1048576;

// The numbers that a slice is lent of: the tables and one more.
const NUMBERS: usize = TABLES + 1;

fn main(rt: HostRuntime) -> io::Result<()> {
    // Fixed buffers, here and below, because then there is no allocation that could fail.
    let mut text = [0u8; SIZE];
    answer_input(&rt, &mut text)
}

// By an array of known length, which the check need not count out.
fn answer_input(rt: &HostRuntime, text: &mut [u8; SIZE]) -> io::Result<()> {
    let n = read_full(&mut rt.stdin(), text)?;
    let mut tables = [0u64; NUMBERS];
    let mut numbers = [0u64; NUMBERS];
    answer_all(
        rt,
        Calls(Reader::new(&text[..n])),
        &mut tables,
        &mut numbers,
    )
}

// Answers every call. The tables are lent to the raw and binary64 calls, and the numbers to the filling calls.
fn answer_all(
    rt: &impl Print,
    calls: Calls,
    tables: &mut [u64],
    numbers: &mut [u64],
) -> io::Result<()> {
    let _ = fill_first(tables, TABLES);
    for call in calls {
        call.answer(rt, tables, numbers)?;
    }
    Ok(())
}

// What a line asks.
#[derive(Clone, Copy)]
enum Call {
    Fill {
        length: usize,
    },
    Raw {
        lent: Lent,
        operation: Operation,
        significand: u64,
        parity: u8,
    },
    Binary64 {
        lent: Lent,
        operation: Operation,
        rounding: Rounding,
        bits: u64,
        status: Status,
    },
}

// What a line says of the lent slice.
#[derive(Clone, Copy)]
struct Lent {
    length: usize,
    place: usize,
    entry: u64,
}

// The calls of a text, line by line.
#[derive(Drop)]
struct Calls<'a>(Reader<'a>);

impl Iterator for Calls<'_> {
    type Item = Call;

    ghost remaining = { λ calls. at_most (length calls.0) };

    fn next(&mut self) -> Option<Call> {
        let text = &mut self.0;
        let letter = text.letter()?;
        text.letter();
        Some(match letter {
            b't' => Call::fill(text),
            b'r' => Call::raw(text),
            _ => Call::binary64(text),
        })
    }
}

impl Lent {
    fn read(text: &mut Reader) -> Lent
        ensures { length text.new ≤ length text.old }
    {
        Lent {
            length: text.number(10) as usize,
            place: text.number(10) as usize,
            entry: text.long(),
        }
    }
}

impl Call {
    // Takes the operands.
    fn fill(text: &mut Reader) -> Call
        ensures { length text.new ≤ length text.old }
    {
        Call::Fill {
            length: text.number(10) as usize,
        }
    }

    fn raw(text: &mut Reader) -> Call
        ensures { length text.new ≤ length text.old }
    {
        Call::Raw {
            lent: Lent::read(text),
            operation: Operation(text.byte()),
            significand: text.long(),
            parity: text.byte(),
        }
    }

    fn binary64(text: &mut Reader) -> Call
        ensures { length text.new ≤ length text.old }
    {
        Call::Binary64 {
            lent: Lent::read(text),
            operation: Operation(text.byte()),
            rounding: Rounding(text.byte()),
            bits: text.long(),
            status: Status { flags: text.byte() },
        }
    }

    // Makes the call, and writes a line of what it gives. Whatever comes of it, the tables are then what they were.
    fn answer(self, rt: &impl Print, tables: &mut [u64], numbers: &mut [u64]) -> io::Result<()>
        ensures { tables.new ≡ tables.old }
    {
        match self {
            Call::Fill { length } => {
                put_sevens(numbers);
                let refusal = match fill_first(numbers, length) {
                    Ok(()) => 0,
                    Err(refusal) => refusal.number(),
                };
                println!(rt; "{refusal} {}", digest(numbers))
            }
            Call::Raw {
                lent,
                operation,
                significand,
                parity,
            } => {
                let reply = with_entry(tables, lent, |tables| {
                    plate::raw64(operation, significand, parity, tables)
                });
                match reply {
                    Ok(answer) => {
                        let (high, low) = halves(answer);
                        println!(rt; "0 {}{}", text_of(&hex(high)), text_of(&hex(low)))
                    }
                    Err(refusal) => println!(rt; "{} 0000000000000000", refusal.number()),
                }
            }
            Call::Binary64 {
                lent,
                operation,
                rounding,
                bits,
                status,
            } => {
                let reply = with_entry(tables, lent, |tables| {
                    plate::binary64(operation, rounding, bits, status, tables)
                });
                let flags = reply.status.flags;
                match reply.answer {
                    Ok(answer) => {
                        let (high, low) = halves(answer);
                        println!(rt; "0 {}{} {flags}", text_of(&hex(high)), text_of(&hex(low)))
                    }
                    Err(refusal) => println!(rt; "{} 0000000000000000 {flags}", refusal.number()),
                }
            }
        }
    }
}

// Makes a call on the first tables, with the entry at its place while the call runs.
fn with_entry<R, F: FnOnce(&[u64]) -> R>(tables: &mut [u64], lent: Lent, call: F) -> R
    requires { F.IsAlwaysCallable call }
    ensures { tables.new ≡ tables.old }
{
    let held = exchange(tables, lent.place, lent.entry);
    let length = lent.length.min(tables.len());
    let reply = call(&tables[..length]);
    exchange(tables, lent.place, held);
    reply
}

// The filling call on the first numbers.
fn fill_first(numbers: &mut [u64], length: usize) -> Result<(), Refusal> {
    let lent = length.min(numbers.len());
    plate::fill_tables(&mut numbers[..lent])
}

// Puts a number at a place, and gives what stood there; a place behind the end changes nothing.
fn exchange(numbers: &mut [u64], place: usize, number: u64) -> u64
    ensures held { result ≡ slice_index numbers.old place }
    ensures put { numbers.new ≡ slice_set numbers.old place number }
{
    if numbers.len() <= place {
        return 0;
    }
    mem::replace(&mut numbers[place], number)
}

// Puts 7j + 3 at each place j.
fn put_sevens(numbers: &mut [u64]) {
    for (j, number) in numbers.iter_mut().enumerate() {
        *number = (j as u64).wrapping_mul(7).wrapping_add(3);
    }
}

// A number that tells slices apart; `list_vectors` folds bytes by the same step.
fn digest(numbers: &[u64]) -> u64 {
    numbers.iter().fold(1, |sum, number| digested(sum, *number))
}

// The upper and the lower half of a pattern.
fn halves(x: u64) -> (u32, u32)
    ensures { (result.0 ≡ x / 4294967296) × (result.1 ≡ x % 4294967296) }
{
    ((x / 4294967296) as u32, (x % 4294967296) as u32)
}

// Digits as text, to be printed with their line at once.
fn text_of(digits: &[u8]) -> &str {
    str::from_utf8(digits).unwrap_or("")
}
