ghost use Rattle.std.specs.Prelude.{◌≡◌, slice_index};
ghost use Rattle.verdict.specs.Verdicts.{accepted_bytes, question_of, refused_bytes, verdict_bytes};

use questions::Refusal;

/// What a job is answered.
#[derive(Clone, Copy, PartialEq, Eq, Debug)]
pub enum Answer {
    /// The relation is accepted, with this many pairs.
    Accepted { count: usize },
    /// The first no.
    Refused(Refusal),
}

// The conversion has a name, since it speaks of the layout's bytes; a verdict is only written.
impl Answer {
    /// The verdict, low bytes first: the question's number or 0, the side, two bytes for the record, row or pair number,
    /// eight for the step number, four for the count of pairs. A number that is too large for its bytes loses its high ones.
    pub fn to_bytes(&self) -> [u8; 16]
        ensures is { result ≡ verdict_bytes self.now }
        ensures number { slice_index result 0 ≡ question_of self.now }
    {
        match *self {
            Answer::Accepted { count } => accepted(count),
            Answer::Refused(refusal) => refused(refusal),
        }
    }
}

fn accepted(count: usize) -> [u8; 16]
    ensures { result ≡ accepted_bytes count }
{
    let mut bytes = [0; 16];
    bytes[12..].copy_from_slice(&count.to_le_bytes()[..4]);
    bytes
}

fn refused(refusal: Refusal) -> [u8; 16]
    ensures { result ≡ refused_bytes refusal }
{
    let mut bytes = [0; 16];
    bytes[0] = refusal.question;
    bytes[1] = u8::from(refusal.side);
    bytes[2..4].copy_from_slice(&refusal.item.to_le_bytes()[..2]);
    bytes[4..12].copy_from_slice(&refusal.step.to_le_bytes());
    bytes
}
