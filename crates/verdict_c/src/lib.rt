// The verdict for programs in C, or in any language that calls C.
#![tactic(auto)]

ghost use Rattle.job.specs.Verdicts.{Verdict};

use job::outcome::verdict;
use std::alloc::Global;

/// The 16 bytes of a verdict, in a place of the caller's.
#[repr(C)]
pub struct VerdictPlace {
    pub bytes: [u8; 16],
}

/// The verdict on an input. C passes the input as a pointer and a length, and nothing for the heap:
/// `void stoollark_verdict(const uint8_t *input, size_t length, uint8_t (*place)[16])`.
#[unsafe(no_mangle)]
pub extern "C" fn stoollark_verdict(heap: Global, input: &[u8], place: &mut VerdictPlace)
    ensures { Verdict input.now place.new.bytes }
{
    place.bytes = verdict(heap, input);
}
