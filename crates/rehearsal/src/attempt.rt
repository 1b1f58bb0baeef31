ghost use Rattle.std.specs.Prelude.{◌≡◌, None};

use model::value::Value;
use play::fault::Fault;
use questions::Side;

/// A call of a play after begin, with what it is told.
#[derive(Clone, Copy, PartialEq, Eq, Debug)]
pub enum Call {
    Challenge { side: Side, step: u64 },
    Reply,
    Settle { value: Value },
}

/// How a call went: it was taken, or it was refused, or it was not made, since the play did not wait for it.
#[derive(Clone, Copy, PartialEq, Eq, Debug)]
pub enum Outcome {
    Taken,
    Refused(Fault),
    OutOfTurn,
}

/// A call that is to be made, and how it went once it was.
#[derive(Clone, Copy, PartialEq, Eq, Debug)]
pub struct Attempt {
    pub call: Call,
    pub outcome: Option<Outcome>,
}

impl Attempt {
    /// A call that was not made yet.
    pub fn of(call: Call) -> Attempt
        ensures { result ≡ record { call = call; outcome = None } }
    {
        Attempt {
            call,
            outcome: None,
        }
    }
}
