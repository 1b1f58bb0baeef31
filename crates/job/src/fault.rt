ghost use Rattle.std.specs.Prelude.{◌≡◌, Some};
ghost use Rattle.job.specs.Faults.{side_refusal, job_refusal, side_fault_text, job_fault_text};
ghost use Rattle.job.specs.declared.fault.SideFault.TheVariants.{BadRange, BadRule, BadNetwork};
ghost use Rattle.job.specs.declared.fault.JobFault.TheVariants.{BadFrame, NotAlike};

use frames::frame::FrameFault;
use judge::fault::Fault;
use model::range::Backward;
use network::fault::NetworkFault;
use questions::{Refusal, Side};
use rules::fault::RuleFault;
use std::error::Error;
use std::fmt;

/// Why a side's records are no network.
#[derive(Clone, Copy, PartialEq, Eq, Debug)]
pub enum SideFault {
    BadRange(Backward),
    BadRule(RuleFault),
    BadNetwork(NetworkFault),
}

// One of a form, by hand: what a derive writes has no contract, and the loads say which fault a `?` makes.
impl From<Backward> for SideFault {
    ghost from_gives = { λ e r. r ≡ BadRange e };

    fn from(e: Backward) -> SideFault {
        SideFault::BadRange(e)
    }
}

impl From<RuleFault> for SideFault {
    ghost from_gives = { λ e r. r ≡ BadRule e };

    fn from(e: RuleFault) -> SideFault {
        SideFault::BadRule(e)
    }
}

impl From<NetworkFault> for SideFault {
    ghost from_gives = { λ e r. r ≡ BadNetwork e };

    fn from(e: NetworkFault) -> SideFault {
        SideFault::BadNetwork(e)
    }
}

impl SideFault {
    /// The refusal with a question from 1 to 7, told of the left side.
    pub fn refusal(&self) -> Refusal
        ensures { result ≡ side_refusal self.now }
    {
        match *self {
            SideFault::BadRange(fault) => fault.refusal(),
            SideFault::BadRule(fault) => fault.refusal(),
            SideFault::BadNetwork(fault) => fault.refusal(),
        }
    }
}

impl fmt::Display for SideFault {
    ghost output = { λ fault. Some (side_fault_text fault) };

    fn fmt<W: fmt::Write>(&self, f: &mut fmt::Formatter<W>) -> fmt::Result {
        match *self {
            SideFault::BadRange(fault) => write!(f, "{fault}"),
            SideFault::BadRule(fault) => write!(f, "{fault}"),
            SideFault::BadNetwork(fault) => write!(f, "{fault}"),
        }
    }
}

impl Error for SideFault {}

/// Why a job is not accepted.
#[derive(Clone, Copy, PartialEq, Eq, Debug)]
pub enum JobFault {
    BadFrame(FrameFault),
    BadSide { side: Side, fault: SideFault },
    NotAlike(Fault),
}

// By hand too, for the same reason.
impl From<FrameFault> for JobFault {
    ghost from_gives = { λ e r. r ≡ BadFrame e };

    fn from(e: FrameFault) -> JobFault {
        JobFault::BadFrame(e)
    }
}

impl From<Fault> for JobFault {
    ghost from_gives = { λ e r. r ≡ NotAlike e };

    fn from(e: Fault) -> JobFault {
        JobFault::NotAlike(e)
    }
}

impl JobFault {
    /// The refusal that the fault stands for.
    pub fn refusal(&self) -> Refusal
        ensures { result ≡ job_refusal self.now }
    {
        match *self {
            JobFault::BadFrame(fault) => fault.refusal(),
            JobFault::BadSide { side, fault } => Refusal {
                side,
                ..fault.refusal()
            },
            JobFault::NotAlike(fault) => fault.refusal(),
        }
    }
}

impl fmt::Display for JobFault {
    ghost output = { λ fault. Some (job_fault_text fault) };

    fn fmt<W: fmt::Write>(&self, f: &mut fmt::Formatter<W>) -> fmt::Result {
        match *self {
            JobFault::BadFrame(fault) => write!(f, "{fault}"),
            JobFault::BadSide {
                side: Side::Left,
                fault,
            } => write!(f, "left system: {fault}"),
            JobFault::BadSide {
                side: Side::Right,
                fault,
            } => write!(f, "right system: {fault}"),
            JobFault::NotAlike(fault) => write!(f, "{fault}"),
        }
    }
}

impl Error for JobFault {}
