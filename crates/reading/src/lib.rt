// The verdict on all that a reader has, of any length, in a fixed room.
#![tactic(auto)]

ghost use Rattle.std.specs.Prelude.{IfOk};
ghost use Rattle.reading.specs.Reading.{VerdictOn};

use input::fill;
use job::outcome::{ENOUGH, verdict};
use std::alloc::Global;
use std::io;
use std::io::Read;

/// The verdict on what the reader has left, where it can be read.
pub fn read_verdict<R: Read>(heap: Global, input: &mut R) -> io::Result<[u8; 16]>
    ensures { IfOk result (λ v. VerdictOn (R.Read.remaining input.old) v) }
{
    // As much as decides the verdict, and an array, so that no memory is asked for.
    let mut bytes = [0; ENOUGH];
    let count = fill(input, &mut bytes)?;
    Ok(verdict(heap, &bytes[..count]))
}
