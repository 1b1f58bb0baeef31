ghost use Rattle.std.specs.Prelude.{◌≡◌, ◌≤◌, ℕ, List, length, IfOk, take};
ghost use Rattle.questions.specs.Asking.{first_no, refusal_of};
ghost use Rattle.frames.specs.Payloads.{relation_of};
ghost use Rattle.judge.specs.Comparing.{comparing};
ghost use Rattle.judge.specs.Judged.{Judged};
ghost use Rattle.job.specs.Faults.{job_refusal};
ghost use Rattle.job.specs.Sides.{loaded_meaning};
ghost use Rattle.job.specs.Jobs.{job_asked};
ghost use Rattle.job.specs.Verdicts.{pair_count, answer_of, Verdict};

use crate::fault::JobFault;
use crate::job::Job;
use frames::gather::{MOST_PAIRS, relation};
use judge::fault::Fault;
use judge::verdict::{Pass, judge};
use std::alloc::Global;
use verdict::answer::Answer;

/// How much of an input decides its verdict: one byte more than the longest job has.
pub const ENOUGH: usize = 65537;

/// As many pairs as most jobs have at the most. Room is filled before it is used, so a small job does not pay for a large one.
const FEW_PAIRS: usize = 64;

/// What the judge answers to the pairs of an input, in room for as many as a job may have.
// not inlined, so that the room is there only where it is used
#[inline(never)]
fn judge_many(heap: Global, job: &Job, bytes: &[u8]) -> Result<Pass, Fault>
    requires { length (relation_of bytes.now) ≤ 1022 }
    ensures { Judged (comparing (loaded_meaning job.now.left.table job.now.left.rule) (loaded_meaning job.now.right.table job.now.right.rule) (relation_of bytes.now)) result }
{
    let pairs = relation::<MOST_PAIRS>(bytes).unwrap();
    judge(heap, &job.left, &job.right, pairs.as_slice())
}

/// The same, in little room where that serves.
fn judge_pairs(heap: Global, job: &Job, bytes: &[u8]) -> Result<Pass, Fault>
    requires { length (relation_of bytes.now) ≤ 1022 }
    ensures { Judged (comparing (loaded_meaning job.now.left.table job.now.left.rule) (loaded_meaning job.now.right.table job.now.right.rule) (relation_of bytes.now)) result }
{
    match relation::<FEW_PAIRS>(bytes) {
        Some(pairs) => judge(heap, &job.left, &job.right, pairs.as_slice()),
        None => judge_many(heap, job, bytes),
    }
}

fn judged(heap: Global, bytes: &[u8]) -> Result<Pass, JobFault>
    ensures refuses { refusal_of job_refusal result ≡ first_no (job_asked bytes.now) }
    ensures counts { IfOk result (λ pass. pass.count ≡ pair_count bytes.now) }
{
    let job = Job::load(bytes)?;
    Ok(judge_pairs(heap, &job, bytes)?)
}

/// The answer to a job, refused or not. The heap makes the judge faster, and changes nothing.
pub fn answer(heap: Global, bytes: &[u8]) -> Answer
    ensures { result ≡ answer_of bytes.now }
{
    match judged(heap, bytes) {
        Ok(pass) => Answer::Accepted {
            count: pass.count(),
        },
        Err(fault) => Answer::Refused(fault.refusal()),
    }
}

/// The verdict on an input, refused or not. It is also the verdict on every input that begins with these bytes, where they
/// are `ENOUGH`. The heap makes the judge faster, and changes nothing.
pub fn verdict(heap: Global, bytes: &[u8]) -> [u8; 16]
    ensures whole { Verdict bytes.now result }
    ensures start { (input : List ℕ) → bytes.now ≡ take ENOUGH input → Verdict input result }
{
    answer(heap, bytes).to_bytes()
}
