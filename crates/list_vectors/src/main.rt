// Runs both list calls on frames from standard input and writes what each call answers, with a digest of the buffer after it.
// A frame is the map's length and the buffer's, 4 bytes each, little-endian, and the map.
#![tactic(auto)]

use input::{digested, read_full, read_word};
use plate::{Rounding, lifted_list, list};
use std::io::Result;

fn main(rt: HostRuntime) -> Result<()> {
    for _ in 0..65536 {
        let Some(length) = read_word(&mut rt.stdin())? else {
            break;
        };
        let Some(room) = read_word(&mut rt.stdin())? else {
            break;
        };
        // One byte more than the longest map, and than the longest list; fixed, because a longer frame ends the program.
        let mut map = [0u8; 16401];
        let mut out = [0u8; 46147];
        let (Some(map), Some(out)) = (map.get_mut(..length as usize), out.get_mut(..room as usize))
        else {
            break;
        };
        read_full(&mut rt.stdin(), map)?;
        run_all(&rt, map, out)?;
    }
    Ok(())
}

// The list call, and then the lifted one, in the roundings 0 to 3, and 4, which is none. The two calls are named, because a table of both
// would be a table of function pointers.
fn run_all(rt: &impl Print, map: &[u8], out: &mut [u8]) -> Result<()> {
    for lifted in [false, true] {
        for rounding in 0..5 {
            fill(out);
            let reply = if lifted {
                lifted_list(Rounding(rounding), map, out)
            } else {
                list(Rounding(rounding), map, out)
            };
            match reply {
                Ok(length) => println!(rt; "0 {length} {}", digest(out))?,
                Err(refusal) => println!(rt; "{} 0 {}", refusal.number(), digest(out))?,
            }
        }
    }
    Ok(())
}

// Byte j is 7j + 3.
fn fill(out: &mut [u8]) {
    for (j, byte) in out.iter_mut().enumerate() {
        *byte = ((j % 256 * 7 + 3) % 256) as u8;
    }
}

// A number that tells buffers apart.
fn digest(out: &[u8]) -> u64 {
    out.iter()
        .fold(1, |sum, byte| digested(sum, (*byte).into()))
}
