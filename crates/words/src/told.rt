ghost use Rattle.std.specs.Prelude.{Some};
ghost use Rattle.words.specs.Tellings.{told_text};

use crate::fault::FaultWords;
use crate::step::ShownStep;
use job::fault::JobFault;
use judge::fault::Fault;
use std::fmt;

/// What a job is answered, with all that is told of it.
#[derive(Clone, Copy)]
pub enum Told {
    /// The relation is accepted, with this many pairs.
    Accepted {
        count: usize,
    },
    /// The first no is among the questions of the layouts.
    Malformed(JobFault),
    /// The first no is the judge's; where it is about a step, the step is shown.
    Unlike {
        fault: Fault,
        step: Option<ShownStep>,
    },
}

impl fmt::Display for Told {
    ghost output = { λ x. Some (told_text x) };

    fn fmt<W: fmt::Write>(&self, f: &mut fmt::Formatter<W>) -> fmt::Result {
        match *self {
            Told::Accepted { count } => write!(
                f,
                "Accepted: the relation is a late strong bisimulation between the two networks.\nIts count of pairs is {count}.\n"
            ),
            Told::Malformed(fault) => {
                let words = FaultWords(fault);
                write!(f, "{words}")
            }
            Told::Unlike { fault, step } => {
                let words = FaultWords(JobFault::NotAlike(fault));
                match step {
                    Some(shown) => write!(f, "{words}{shown}"),
                    None => write!(f, "{words}"),
                }
            }
        }
    }
}
