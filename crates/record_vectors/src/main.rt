// Runs the record call on frames from standard input, and writes a line for each call: refusal, rounding, w, d, step, radius, x, y, z; an
// unknown rounding is a dash.
// A frame is the list's length and the number of indexes, 4 bytes each, the list, and the indexes, 8 bytes each; all little-endian.
#![tactic(auto)]

use input::{read_full, read_word};
use plate::{Rounding, record};
use std::io::Result;

fn main(rt: HostRuntime) -> Result<()> {
    for _ in 0..65536 {
        let Some(length) = read_word(&mut rt.stdin())? else {
            break;
        };
        let Some(indexes) = read_word(&mut rt.stdin())? else {
            break;
        };
        // One byte more than the longest list; fixed, because a longer frame ends the program.
        let mut list = [0u8; 46147];
        let Some(list) = list.get_mut(..length as usize) else {
            break;
        };
        read_full(&mut rt.stdin(), list)?;
        for _ in 0..indexes {
            run(&rt, list, read_index(&rt)?)?;
        }
    }
    Ok(())
}

fn read_index(rt: &HostRuntime) -> Result<usize> {
    let mut bytes = [0u8; 8];
    read_full(&mut rt.stdin(), &mut bytes)?;
    Ok(usize::from_le_bytes(bytes))
}

fn run(rt: &impl Print, list: &[u8], index: usize) -> Result<()> {
    match record(list, index) {
        Ok(r) => {
            print!(rt; "0 ")?;
            told(rt, r.rounding)?;
            print!(rt; "{} {} {} {} ", r.width, r.depth, r.step, r.radius)?;
            println!(rt; "{} {} {}", r.x, r.y, r.z)
        }
        Err(refusal) => println!(rt; "{} - 0 0 0 0 0 0 0", refusal.number()),
    }
}

// By cases and not by `Display`, because the dash is this program's own.
fn told(rt: &impl Print, rounding: Option<Rounding>) -> Result<()> {
    match rounding {
        None => print!(rt; "- "),
        Some(known) => print!(rt; "{} ", known.0),
    }
}
