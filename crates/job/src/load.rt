ghost use Rattle.std.specs.Prelude.{◌≡◌, ◌≤◌, length, IfOk, OnOk};
ghost use Rattle.frames.specs.Payloads.{relation_of};
ghost use Rattle.questions.specs.Asking.{first_no, refusal_of};
ghost use Rattle.job.specs.Faults.{job_refusal};
ghost use Rattle.job.specs.Jobs.{layouts_asked, Loaded};

use crate::fault::JobFault;
use crate::job::Job;
use crate::sides::Records;
use frames::frame::check;
use network::network::Network;
use questions::Side;
use rules::both::Both;
use rules::links::Links;
use rules::tuner::Tuner;

impl Job {
    /// The networks that an input describes. The questions are those of the layouts: 22, 23, and 1 to 7 of either side. An
    /// input that passes them has at most 1,022 pairs.
    pub fn load(bytes: &[u8]) -> Result<Job, JobFault>
        ensures refuses { refusal_of job_refusal result ≡ first_no (layouts_asked bytes.now) }
        ensures loads { IfOk result (Loaded bytes.now) }
        ensures few { OnOk result (length (relation_of bytes.now) ≤ 1022) }
    {
        check(bytes)?;
        let left = Records {
            bytes,
            side: Side::Left,
        };
        let right = Records {
            bytes,
            side: Side::Right,
        };
        let left = left.load()?;
        let right = right.load()?;
        Ok(Job { left, right })
    }

    /// The left network.
    pub fn left(&self) -> &Network<Both<Links, Tuner>>
        ensures { result.now ≡ self.now.left }
    {
        &self.left
    }

    /// The right network.
    pub fn right(&self) -> &Network<Both<Links, Tuner>>
        ensures { result.now ≡ self.now.right }
    {
        &self.right
    }
}
