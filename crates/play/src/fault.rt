ghost use Rattle.std.specs.Prelude.{◌≡◌, Some};
ghost use Rattle.play.specs.Calls.{play_refusal, fault_text};

use questions::Refusal;
use std::error::Error;
use std::fmt;

/// Why a call of a play is refused: the first no among its questions.
#[derive(Clone, Copy, PartialEq, Eq, Debug)]
pub enum Fault {
    Ranges,
    TooMany,
    NoPair,
    NoStep,
    NoReply,
    Value,
    Landings,
}

impl Fault {
    pub fn refusal(&self) -> Refusal
        ensures { result ≡ play_refusal self.now }
    {
        let question = match *self {
            Fault::Ranges => 10,
            Fault::TooMany => 11,
            Fault::NoPair => 17,
            Fault::NoStep => 18,
            Fault::NoReply => 19,
            Fault::Value => 20,
            Fault::Landings => 21,
        };
        Refusal::of(question, 0)
    }
}

impl fmt::Display for Fault {
    ghost output = { λ fault. Some (fault_text fault) };

    fn fmt<W: fmt::Write>(&self, f: &mut fmt::Formatter<W>) -> fmt::Result {
        match *self {
            Fault::Ranges => f.write_str("the systems have different ranges"),
            Fault::TooMany => f.write_str("the relation has too many pairs"),
            Fault::NoPair => f.write_str("there is no pair with that number"),
            Fault::NoStep => f.write_str("there is no step with that number"),
            Fault::NoReply => f.write_str("the step has no reply"),
            Fault::Value => f.write_str("the received value is out of range"),
            Fault::Landings => f.write_str("the landings are no pair of the relation"),
        }
    }
}

impl Error for Fault {}

/// A refused call: the play that it was given, as it was, and why it is refused.
#[derive(Drop, Debug)]
pub struct Refused<P> {
    pub play: P,
    pub fault: Fault,
}

impl<P> fmt::Display for Refused<P> {
    ghost output = { λ refused. Some (fault_text refused.fault) };

    fn fmt<W: fmt::Write>(&self, f: &mut fmt::Formatter<W>) -> fmt::Result {
        write!(f, "{}", self.fault)
    }
}

impl<P: fmt::Debug + Drop> Error for Refused<P> {}
