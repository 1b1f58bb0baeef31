ghost use Rattle.std.specs.Prelude.{◌≡◌, Some};
ghost use Rattle.questions.specs.declared.Side.TheVariants.{Right};
ghost use Rattle.judge.specs.Judged.{say, judge_refusal, fault_text};

use questions::{Refusal, Side};
use std::error::Error;
use std::fmt;

/// Why a relation is not accepted: the first no among the judge's questions. A pair is told by its number in the relation,
/// and a step without a reply by its number in the list of its own state.
// Left and right are variants and no field, since each is a question of its own.
#[derive(Clone, Copy, PartialEq, Eq, Debug)]
pub enum Fault {
    Ranges,
    TooMany,
    LeftUnlawful { pair: usize },
    RightUnlawful { pair: usize },
    Shown { pair: usize },
    LeftStep { pair: usize, step: u64 },
    RightStep { pair: usize, step: u64 },
}

/// The refusal, told of the right side.
fn of_right(refusal: Refusal) -> Refusal
    ensures { result ≡ say refusal.question Right refusal.item refusal.step }
{
    Refusal {
        side: Side::Right,
        ..refusal
    }
}

impl Fault {
    pub fn refusal(&self) -> Refusal
        ensures { result ≡ judge_refusal self.now }
    {
        match *self {
            Fault::Ranges => Refusal::of(10, 0),
            Fault::TooMany => Refusal::of(11, 0),
            Fault::LeftUnlawful { pair } => Refusal::of(12, pair),
            Fault::RightUnlawful { pair } => of_right(Refusal::of(13, pair)),
            Fault::Shown { pair } => Refusal::of(14, pair),
            Fault::LeftStep { pair, step } => Refusal {
                step,
                ..Refusal::of(15, pair)
            },
            Fault::RightStep { pair, step } => of_right(Refusal {
                step,
                ..Refusal::of(16, pair)
            }),
        }
    }
}

impl fmt::Display for Fault {
    ghost output = { λ fault. Some (fault_text fault) };

    fn fmt<W: fmt::Write>(&self, f: &mut fmt::Formatter<W>) -> fmt::Result {
        match *self {
            Fault::Ranges => f.write_str("the systems have different ranges"),
            Fault::TooMany => f.write_str("the relation has too many pairs"),
            Fault::LeftUnlawful { pair } => write!(
                f,
                "the left state of pair {pair} is not lawful"
            ),
            Fault::RightUnlawful { pair } => write!(
                f,
                "the right state of pair {pair} is not lawful"
            ),
            Fault::Shown { pair } => write!(f, "the states of pair {pair} show different sets"),
            Fault::LeftStep { pair, step } => write!(
                f,
                "step {step} of the left state of pair {pair} has no reply"
            ),
            Fault::RightStep { pair, step } => write!(
                f,
                "step {step} of the right state of pair {pair} has no reply"
            ),
        }
    }
}

impl Error for Fault {}
