// The start of an input, as far as there is room for it, and the part that is passed over. What the clauses say of the
// bytes of a reader they say where its `remaining` is known. Which error a reader gives, and so which one is handed on, they
// do not say.
#![tactic(auto)]

ghost use Rattle.std.specs.Prelude.{◌≡◌, ℕ, ◌≤◌, ◌<◌, false, length, take, IfOk, OnErr, IsTrue};
ghost use Rattle.std.specs.Io.KnownBytes.{Consumes, IsAtEnd};
ghost use Rattle.input.specs.Passing.{PassesOver, StopsBefore};

use std::io;
use std::io::Read;

/// Reads until the buffer is full or the input ends, and answers how many bytes are there. Where a read fails, some bytes,
/// fewer than the buffer has room for, were read before, and stand at its start. After either answer it is open what stands
/// in the buffer behind the bytes that were read: a reader may write there what it likes.
pub fn fill<R: Read>(input: &mut R, buffer: &mut [u8]) -> io::Result<usize>
    ensures room { IfOk result (λ n. n ≤ length buffer.new) }
    ensures bytes { IfOk result (λ n. Consumes (R.Read.remaining input.old) (R.Read.remaining input.new) (take n buffer.new)) }
    ensures end { IfOk result (λ n. n < length buffer.new → IsAtEnd (R.Read.remaining input.new)) }
    ensures failed { OnErr result ((n : ℕ) × (n < length buffer.new)
        × Consumes (R.Read.remaining input.old) (R.Read.remaining input.new) (take n buffer.new)) }
{
    // by hand, since read_exact wants a full buffer, and read_to_end asks for memory
    let mut filled = 0;
    while filled < buffer.len() {
        match input.read(&mut buffer[filled..])? {
            0 => break,
            count => filled += count,
        }
    }
    Ok(filled)
}

/// How many bytes are passed over at once.
const PART: usize = 4096;

/// Reads and passes over so many bytes, and answers whether they were there: where the input ends before, all that it had
/// is passed over. Where a read fails, some bytes, fewer than were asked for, were passed over.
pub fn skip<R: Read>(input: &mut R, count: usize) -> io::Result<bool>
    ensures skipped { IfOk result (λ all. IsTrue all → PassesOver (R.Read.remaining input.old) (R.Read.remaining input.new) count) }
    ensures short { IfOk result (λ all. all ≡ false → StopsBefore (R.Read.remaining input.old) (R.Read.remaining input.new) count) }
    ensures end { IfOk result (λ all. all ≡ false → IsAtEnd (R.Read.remaining input.new)) }
    ensures failed { OnErr result (StopsBefore (R.Read.remaining input.old) (R.Read.remaining input.new) count) }
{
    let mut part = [0; PART];
    let mut left = count;
    while left > 0 {
        let wanted = left.min(PART);
        let read = fill(input, &mut part[..wanted])?;
        if read < wanted {
            return Ok(false);
        }
        left -= read;
    }
    Ok(true)
}
