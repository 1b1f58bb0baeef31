ghost use Rattle.std.specs.Prelude.{◌≡◌, Some};
ghost use Rattle.rehearsal.specs.Law.{rehearsal_refusal, rehearsal_text};
ghost use Rattle.rehearsal.specs.declared.fault.RehearsalFault.TheVariants.{NotAccepted, NotBegun};

use questions::Refusal;
use std::error::Error;
use std::fmt;

/// Why a rehearsal does not begin: the judge does not accept the relation, or begin refuses the pair number.
#[derive(Clone, Copy, PartialEq, Eq, Debug)]
pub enum RehearsalFault {
    NotAccepted(judge::fault::Fault),
    NotBegun(play::fault::Fault),
}

impl RehearsalFault {
    pub fn refusal(&self) -> Refusal
        ensures { result ≡ rehearsal_refusal self.now }
    {
        match *self {
            RehearsalFault::NotAccepted(fault) => fault.refusal(),
            RehearsalFault::NotBegun(fault) => fault.refusal(),
        }
    }
}

impl From<judge::fault::Fault> for RehearsalFault {
    ghost from_gives = { λ fault result. result ≡ NotAccepted fault };

    fn from(fault: judge::fault::Fault) -> RehearsalFault {
        RehearsalFault::NotAccepted(fault)
    }
}

impl From<play::fault::Fault> for RehearsalFault {
    ghost from_gives = { λ fault result. result ≡ NotBegun fault };

    fn from(fault: play::fault::Fault) -> RehearsalFault {
        RehearsalFault::NotBegun(fault)
    }
}

impl fmt::Display for RehearsalFault {
    ghost output = { λ fault. Some (rehearsal_text fault) };

    fn fmt<W: fmt::Write>(&self, f: &mut fmt::Formatter<W>) -> fmt::Result {
        match *self {
            RehearsalFault::NotAccepted(fault) => write!(f, "{fault}"),
            RehearsalFault::NotBegun(fault) => write!(f, "{fault}"),
        }
    }
}

impl Error for RehearsalFault {}
