ghost use Rattle.std.specs.Prelude.{◌≡◌, ◌≤◌, ◌==◌, length, Some, OnOk};
ghost use Rattle.std.specs.List.{list_all};
ghost use Rattle.lists.specs.Words.{records};
ghost use Rattle.questions.specs.Asking.{first_no, refusal_of};
ghost use Rattle.questions.specs.Sides.{side_byte};
ghost use Rattle.frames.specs.Frames.{placed, framed, frames_asked, frame_refusal, fault_text};
ghost use Rattle.frames.specs.Payloads.{relation_of};

use crate::kind::Kind;
use questions::{Refusal, Side};
use std::error::Error;
use std::fmt;

/// How many bytes a record has.
pub const RECORD: usize = 64;

/// The shortest and the longest input.
pub const SHORTEST: usize = 128;

pub const LONGEST: usize = 65536;

/// Why an input is no job.
#[derive(Clone, Copy, PartialEq, Eq, Debug)]
pub enum FrameFault {
    /// The length is no multiple of 64 from 128 to 65,536.
    Length,
    /// This record has not its kind, side, position and zeros.
    Record { number: usize },
}

impl FrameFault {
    pub fn refusal(&self) -> Refusal
        ensures { result ≡ frame_refusal self.now }
    {
        match *self {
            FrameFault::Length => Refusal::of(22, 0),
            FrameFault::Record { number } => Refusal::of(23, number),
        }
    }
}

impl fmt::Display for FrameFault {
    ghost output = { λ fault. Some (fault_text fault) };

    fn fmt<W: fmt::Write>(&self, f: &mut fmt::Formatter<W>) -> fmt::Result {
        match *self {
            FrameFault::Length => f.write_str("the length is no multiple of 64 from 128 to 65536"),
            FrameFault::Record { number } => write!(f, "record {number} is not framed"),
        }
    }
}

impl Error for FrameFault {}

/// The whole records of an input.
#[tactic(auto, using(crate::proofs::Cut::chunks_cut))]
pub(crate) fn records(bytes: &[u8]) -> &[[u8; RECORD]]
    ensures { result.now ≡ records 64 bytes.now }
{
    bytes.as_chunks().0
}

// The largest byte is found many bytes at a time; a walk that stops at the first one that is not zero goes byte by byte.
fn is_zero(bytes: &[u8]) -> bool
    ensures { result ≡ list_all (λ b. b == 0) bytes.now }
{
    let mut largest = 0;
    for byte in bytes {
        if *byte > largest {
            largest = *byte;
        }
    }
    largest == 0
}

/// Whether a record of this kind and side may have this number.
fn is_placed(kind: Kind, side: Side, number: usize) -> bool
    ensures { result ≡ placed kind (side_byte side) number }
{
    matches!(
        (number, kind, side),
        (0, Kind::Setting, Side::Left)
            | (1, Kind::Setting, Side::Right)
            | (2.., Kind::Row | Kind::Link, _)
            | (2.., Kind::Pair, Side::Left)
    )
}

/// Whether a record has its kind, side, position and zeros.
fn is_framed(item: &[u8; RECORD], number: usize) -> bool
    ensures { result ≡ framed number item.now }
{
    match (Kind::try_from(item[0]), Side::try_from(item[1])) {
        (Ok(kind), Ok(side)) => is_placed(kind, side, number) && is_zero(&item[2 + kind.width()..]),
        _ => false,
    }
}

/// Puts questions 22 and 23. An input that passes them has at most 1,022 pairs, since its first two records are settings.
pub fn check(bytes: &[u8]) -> Result<(), FrameFault>
    ensures refuses { refusal_of frame_refusal result ≡ first_no (frames_asked bytes.now) }
    ensures few { OnOk result (length (relation_of bytes.now) ≤ 1022) }
{
    if bytes.len() % RECORD != 0 || !(SHORTEST..=LONGEST).contains(&bytes.len()) {
        return Err(FrameFault::Length);
    }
    for (number, item) in records(bytes).iter().enumerate() {
        if !is_framed(item, number) {
            return Err(FrameFault::Record { number });
        }
    }
    Ok(())
}
