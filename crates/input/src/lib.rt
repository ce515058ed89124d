// Bytes of a reader put into a lent buffer or read as a number, and a digest of numbers, for programs that read standard input.
#![tactic(auto)]

ghost use Rattle.std.specs.Prelude.{◌≡◌, ℕ, ◌+◌, ◌*◌, ◌%◌, ◌<◌, ◌≤◌, List, length, take, IfOk, OnErr, MatchOption};
ghost use Rattle.std.specs.Int.{w32, from_le_bytes};
ghost use Rattle.std.specs.Io.{ReadsAtMost};
ghost use Rattle.std.specs.Io.KnownBytes.{Keeps, Consumes, IsAtEnd};

use std::io::{ErrorKind, Read, Result};

// The prime that digests are counted by.
const PRIME: u64 = 4294967291;

// Reads until the buffer is full or the input ends, and gives how many bytes it put at the front: the next ones of the input, all of them
// if there is room left. If a read fails, its error is the answer. The bytes that were read before it stand at the front then.
pub fn read_full<R: Read>(input: &mut R, bytes: &mut [u8]) -> Result<usize>
    ensures bound { ReadsAtMost result bytes.new }
    ensures front { IfOk result (λ n. Consumes (R.remaining input.old) (R.remaining input.new) (take n bytes.new)) }
    ensures end { IfOk result (λ n. n < length bytes.new → IsAtEnd (R.remaining input.new)) }
    ensures err { OnErr result ((n : ℕ) × (n ≤ length bytes.new) × Consumes (R.remaining input.old) (R.remaining input.new) (take n bytes.new)) }
{
    // No `for`: a turn takes as many bytes as a read gives, and the promise names how many they are.
    let mut filled = 0;
    while filled < bytes.len() {
        let more = read_again(input, &mut bytes[filled..])?;
        if more == 0 {
            return Ok(filled);
        }
        filled += more;
    }
    Ok(filled)
}

// The number of the next four bytes, the lowest first. None if the input ends before there are four.
pub fn read_word<R: Read>(input: &mut R) -> Result<Option<u32>>
    ensures { IfOk result (λ word. MatchOption word (IsAtEnd (R.remaining input.new)) (λ n. (b : List ℕ) × Consumes (R.remaining input.old) (R.remaining input.new) b × (length b ≡ 4) × (n ≡ from_le_bytes w32 b))) }
{
    let mut bytes = [0u8; 4];
    if read_full(input, &mut bytes)? < 4 {
        return Ok(None);
    }
    Ok(Some(u32::from_le_bytes(bytes)))
}

// The digest of some numbers and one behind them, by their digest; that of no numbers is 1.
pub fn digested(digest: u64, number: u64) -> u64
    ensures { result ≡ (257 * (digest % PRIME) + number % PRIME + 1) % PRIME }
{
    (257 * (digest % PRIME) + number % PRIME + 1) % PRIME
}

// One read. It is tried again while a signal interrupts it; a loop with no end would have to be allowed to wait, hence the count.
fn read_again<R: Read>(input: &mut R, bytes: &mut [u8]) -> Result<usize>
    ensures bound { ReadsAtMost result bytes.new }
    ensures front { IfOk result (λ n. Consumes (R.remaining input.old) (R.remaining input.new) (take n bytes.new)) }
    ensures end { IfOk result (λ n. n ≡ 0 → 0 < length bytes.old → IsAtEnd (R.remaining input.new)) }
    ensures err { OnErr result (Keeps (R.remaining input.old) (R.remaining input.new)) }
{
    for _ in 0..u64::MAX {
        match input.read(bytes) {
            Err(error) if error.kind() == ErrorKind::Interrupted => {}
            answer => return answer,
        }
    }
    input.read(bytes)
}

#[cfg(test)]
mod tests {
    use super::*;
    use std::io::Error;

    // A signal comes before each of two bytes, and then the reader ends or fails.
    #[derive(Drop)]
    struct Pieces {
        turn: u8,
        fails: bool,
    }

    impl Read for Pieces {
        fn read(&mut self, bytes: &mut [u8]) -> Result<usize> {
            let turn = self.turn;
            self.turn = turn.saturating_add(1);
            if turn == 0 || turn == 2 {
                return Err(Error::from(ErrorKind::Interrupted));
            }
            if turn < 4 && !bytes.is_empty() {
                bytes[0] = turn;
                return Ok(1);
            }
            if self.fails {
                return Err(Error::from(ErrorKind::BrokenPipe));
            }
            Ok(0)
        }
    }

    fn interrupted(fails: bool) -> Pieces {
        Pieces { turn: 0, fails }
    }

    #[test]
    fn interrupted_reads_are_tried_again(rt: HostRuntime) {
        let mut bytes = [9u8; 4];
        let n = read_full(&mut interrupted(false), &mut bytes);
        assert!(rt; matches!(n, Ok(2)));
        assert!(rt; bytes == [1, 3, 9, 9]);
    }

    #[test]
    fn a_full_buffer_asks_for_no_more(rt: HostRuntime) {
        let mut bytes = [9u8; 2];
        let n = read_full(&mut interrupted(true), &mut bytes);
        assert!(rt; matches!(n, Ok(2)));
        assert!(rt; bytes == [1, 3]);
    }

    #[test]
    fn a_failed_read_keeps_what_came_before_it(rt: HostRuntime) {
        let mut bytes = [9u8; 4];
        let n = read_full(&mut interrupted(true), &mut bytes);
        assert!(rt; matches!(n, Err(error) if error.kind() == ErrorKind::BrokenPipe));
        assert!(rt; bytes == [1, 3, 9, 9]);
    }
}
