// Reads a map from standard input and prints its list, rounding nearest.
#![tactic(auto)]

ghost use Rattle.std.specs.Prelude.{ℕ, ◌<◌, ◌≤◌, length, take, IfOk, OnOk, OnErr};
ghost use Rattle.std.specs.Io.{ReadsAtMost, WritesAtMost};
ghost use Rattle.std.specs.Io.KnownBytes.{Keeps, Consumes, Appends, IsAtEnd};
ghost use Rattle.text.specs.Text.{platelist_text};

use input::read_full;
use std::io::{Error, ErrorKind, Read, Result, Write, writer};
use std::process::ExitCode;
use text::put_text;

fn main(rt: HostRuntime) -> ExitCode {
    // One byte more than the longest map, 4 × 64 × 64 + 16; fixed, because the byte too many is what tells a map that is too long.
    let mut map = [0u8; 16401];
    let length = match read_input(&mut rt.stdin(), &mut map) {
        Ok(length) => length,
        Err(error) => return failed(&rt, "standard input", &error),
    };
    match print(&mut writer(&rt), &map[..length]) {
        Ok(()) => ExitCode::SUCCESS,
        Err(error) => failed(&rt, "standard output", &error),
    }
}

// Reads until the buffer is full or the input ends. If the end comes before any text, it is asked for once more, because a terminal can go on.
fn read_input<R: Read>(input: &mut R, bytes: &mut [u8]) -> Result<usize>
    ensures bound { ReadsAtMost result bytes.new }
    ensures front { IfOk result (λ n. Consumes (R.remaining input.old) (R.remaining input.new) (take n bytes.new)) }
    ensures end { IfOk result (λ n. n < length bytes.new → IsAtEnd (R.remaining input.new)) }
    ensures err { OnErr result ((n : ℕ) × (n ≤ length bytes.new) × Consumes (R.remaining input.old) (R.remaining input.new) (take n bytes.new)) }
{
    let length = read_full(input, bytes)?;
    if length > 0 {
        return Ok(length);
    }
    read_full(input, bytes)
}

// Writes the text for these bytes at once. If a write fails, its error is the answer, and what is written is the front of the text.
fn print<W: Write>(out: &mut W, map: &[u8]) -> Result<()>
    ensures ok { OnOk result (Appends (W.contents out.old) (W.contents out.new) (platelist_text map.now)) }
    ensures err { OnErr result ((n : ℕ) × Appends (W.contents out.old) (W.contents out.new) (take n (platelist_text map.now))) }
{
    // The longest list, 12 × 62 × 62 + 18; both are fixed, because `put_text` takes buffers of these lengths.
    let mut list = [0u8; 46146];
    let mut text = [0u8; 230688];
    let end = put_text(map, &mut list, &mut text);
    write_full(out, &text[..end])
}

// Writes all the bytes, at once unless the system takes fewer. Not std's `write_all`, because that does not say what is written before a
// write fails.
fn write_full<W: Write>(out: &mut W, bytes: &[u8]) -> Result<()>
    ensures ok { OnOk result (Appends (W.contents out.old) (W.contents out.new) bytes.now) }
    ensures err { OnErr result ((n : ℕ) × Appends (W.contents out.old) (W.contents out.new) (take n bytes.now)) }
{
    // No `for`: a turn takes as many bytes as a write takes, and the promise names how many they are.
    let mut written = 0;
    while written < bytes.len() {
        let more = write_again(out, &bytes[written..])?;
        if more == 0 {
            return Err(Error::from(ErrorKind::WriteZero));
        }
        written += more;
    }
    Ok(())
}

// One write. It is tried again while a signal interrupts it. The promise is about what a writer holds, and a read's about what a reader
// has left: so each has its own text.
fn write_again<W: Write>(out: &mut W, bytes: &[u8]) -> Result<usize>
    ensures bound { WritesAtMost result bytes.now }
    ensures some { IfOk result (λ n. Appends (W.contents out.old) (W.contents out.new) (take n bytes.now)) }
    ensures none { OnErr result (Keeps (W.contents out.old) (W.contents out.new)) }
{
    for _ in 0..u64::MAX {
        match out.write(bytes) {
            Err(error) if error.kind() == ErrorKind::Interrupted => {}
            answer => return answer,
        }
    }
    out.write(bytes)
}

// Says on standard error which stream failed and why.
fn failed(rt: &HostRuntime, stream: &str, error: &Error) -> ExitCode {
    let _ = say(rt, stream, error);
    ExitCode::FAILURE
}

fn say(rt: &HostRuntime, stream: &str, error: &Error) -> Result<()> {
    let text = format!(in rt.alloc(); "{error}")?;
    eprintln!(rt; "platelist: {stream}: {}", without_number(&text))
}

// The system's words alone: the text of an error has the system's number behind them.
fn without_number(text: &str) -> &str {
    text.split_once(" (os error ")
        .map_or(text, |(words, _)| words)
}
