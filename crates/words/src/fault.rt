ghost use Rattle.std.specs.Prelude.{◌≡◌, Some};
ghost use Rattle.words.specs.Faults.{frame_asks, side_asks, judge_asks, job_asks, whose_text, frame_place, side_place, judge_place, place_text, fault_text};

use frames::frame::FrameFault;
use job::fault::{JobFault, SideFault};
use judge::fault::Fault;
use network::fault::NetworkFault;
use questions::Side;
use rules::fault::RuleFault;
use std::fmt;
use tables::TableFault;

/// The question that a fault answers no: its number, what it asks, and of which side and which item the no is.
#[derive(Clone, Copy)]
pub struct FaultWords(pub JobFault);

fn frame_asks(fault: FrameFault) -> &'static str
    ensures { result.now ≡ frame_asks fault }
{
    match fault {
        FrameFault::Length => "Is the length a multiple of 64, from 128 to 65536?",
        FrameFault::Record { .. } => "Has each record its kind, side, position and zero bytes?",
    }
}

fn side_asks(fault: SideFault) -> &'static str
    ensures { result.now ≡ side_asks fault }
{
    match fault {
        SideFault::BadRange(_) => "Is the lowest value of the range at most the highest?",
        SideFault::BadRule(RuleFault::Table(TableFault::Count)) => {
            "Are the links whole records, and at most 16?"
        }
        SideFault::BadRule(RuleFault::Table(TableFault::Record { .. })) => {
            "Is each link as laid out?"
        }
        SideFault::BadRule(RuleFault::Limit) => "Is the tuner limit at most 8?",
        SideFault::BadNetwork(NetworkFault::Units) => "Are there 1 to 6 units?",
        SideFault::BadNetwork(NetworkFault::Rows(TableFault::Count)) => {
            "Are the rows whole records, and at most 64?"
        }
        SideFault::BadNetwork(NetworkFault::Rows(TableFault::Record { .. })) => {
            "Is each row as laid out, with its constants in the range?"
        }
    }
}

fn judge_asks(fault: Fault) -> &'static str
    ensures { result.now ≡ judge_asks fault }
{
    match fault {
        Fault::Ranges => "Have both systems the same range?",
        Fault::TooMany => "Has the relation at most 4096 records?",
        Fault::LeftUnlawful { .. } => "Is the left state lawful in the left system?",
        Fault::RightUnlawful { .. } => "Is the right state lawful in the right system?",
        Fault::Shown { .. } => "Do both states show the same set?",
        Fault::LeftStep { .. } => "Has each step of the left state a reply?",
        Fault::RightStep { .. } => "Has each step of the right state a reply?",
    }
}

/// What the question asks.
fn asks(fault: JobFault) -> &'static str
    ensures { result.now ≡ job_asks fault }
{
    match fault {
        JobFault::BadFrame(fault) => frame_asks(fault),
        JobFault::BadSide { fault, .. } => side_asks(fault),
        JobFault::NotAlike(fault) => judge_asks(fault),
    }
}

/// Of which side the question is asked, where it is asked of one.
fn whose(fault: JobFault) -> &'static str
    ensures { result.now ≡ whose_text fault }
{
    match fault {
        JobFault::BadSide {
            side: Side::Left,
            ..
        } => ", left side",
        JobFault::BadSide {
            side: Side::Right,
            ..
        } => ", right side",
        JobFault::BadFrame(_) | JobFault::NotAlike(_) => "",
    }
}

/// At which record, link, row, pair and step the no is.
#[derive(Clone, Copy)]
struct Place(JobFault);

/// The same of the frames, of a side and of the judge.
#[derive(Clone, Copy)]
struct FramePlace(FrameFault);

#[derive(Clone, Copy)]
struct SidePlace(SideFault);

#[derive(Clone, Copy)]
struct JudgePlace(Fault);

impl fmt::Display for FramePlace {
    ghost output = { λ x. Some (frame_place x.0) };

    fn fmt<W: fmt::Write>(&self, f: &mut fmt::Formatter<W>) -> fmt::Result {
        match self.0 {
            FrameFault::Length => Ok(()),
            FrameFault::Record { number } => write!(f, "The first no is at record {number}.\n"),
        }
    }
}

impl fmt::Display for SidePlace {
    ghost output = { λ x. Some (side_place x.0) };

    fn fmt<W: fmt::Write>(&self, f: &mut fmt::Formatter<W>) -> fmt::Result {
        match self.0 {
            SideFault::BadRule(RuleFault::Table(TableFault::Record { number })) => {
                write!(f, "The first no is at link {number}.\n")
            }
            SideFault::BadNetwork(NetworkFault::Rows(TableFault::Record { number })) => {
                write!(f, "The first no is at row {number}.\n")
            }
            SideFault::BadRange(_)
            | SideFault::BadRule(RuleFault::Limit)
            | SideFault::BadRule(RuleFault::Table(TableFault::Count))
            | SideFault::BadNetwork(NetworkFault::Units)
            | SideFault::BadNetwork(NetworkFault::Rows(TableFault::Count)) => Ok(()),
        }
    }
}

impl fmt::Display for JudgePlace {
    ghost output = { λ x. Some (judge_place x.0) };

    fn fmt<W: fmt::Write>(&self, f: &mut fmt::Formatter<W>) -> fmt::Result {
        match self.0 {
            Fault::Ranges | Fault::TooMany => Ok(()),
            Fault::LeftUnlawful { pair } | Fault::RightUnlawful { pair } | Fault::Shown { pair } =>
                write!(f, "The first no is at pair {pair}.\n"),
            Fault::LeftStep { pair, step } | Fault::RightStep { pair, step } => {
                write!(f, "The first no is at pair {pair}, step {step}.\n")
            }
        }
    }
}

impl fmt::Display for Place {
    ghost output = { λ x. Some (place_text x.0) };

    fn fmt<W: fmt::Write>(&self, f: &mut fmt::Formatter<W>) -> fmt::Result {
        match self.0 {
            JobFault::BadFrame(fault) => {
                let place = FramePlace(fault);
                write!(f, "{place}")
            }
            JobFault::BadSide { fault, .. } => {
                let place = SidePlace(fault);
                write!(f, "{place}")
            }
            JobFault::NotAlike(fault) => {
                let place = JudgePlace(fault);
                write!(f, "{place}")
            }
        }
    }
}

impl fmt::Display for FaultWords {
    ghost output = { λ x. Some (fault_text x.0) };

    #[tactic(auto, unfolding(crate::specs::Faults::fault_text))]
    fn fmt<W: fmt::Write>(&self, f: &mut fmt::Formatter<W>) -> fmt::Result {
        let fault = self.0;
        let question = fault.refusal().question;
        let whose = whose(fault);
        let asks = asks(fault);
        let place = Place(fault);
        write!(f, "Refused by question {question}{whose}: {asks}\n{place}")
    }
}
