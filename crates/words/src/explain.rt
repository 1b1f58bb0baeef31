ghost use Rattle.std.specs.Prelude.{◌≡◌, ◌<◌, length, Some, slice_get};
ghost use Rattle.questions.specs.Asking.{first_no};
ghost use Rattle.judge.specs.Judged.{judge_asked, judge_refusal};
ghost use Rattle.frames.specs.Payloads.{relation_of};
ghost use Rattle.job.specs.Jobs.{compared_in, Loaded};
ghost use Rattle.job.specs.Verdicts.{answer_of};
ghost use Rattle.words.specs.Steps.{IsStep};
ghost use Rattle.words.specs.Explaining.{answer_in, Shows, ShowsStep};

use crate::step::ShownStep;
use crate::told::Told;
use frames::gather::{MOST_PAIRS, relation, setting};
use job::job::Job;
use judge::fault::Fault;
use judge::verdict::judge;
use model::state::{Pair, State};
use questions::Side;
use std::alloc::Global;
use systems::System;

/// A step that the state has.
fn step_on<S: System>(system: &S, units: usize, state: &State, step: u64) -> ShownStep
    requires { step < length ((S.System.means system.now).steps state.now) }
    ensures step { IsStep (S.System.means system.now) state.now step result }
    ensures units { result.units ≡ units }
{
    let range = system.range();
    ShownStep {
        units,
        state: *state,
        label: system.label(state, step).unwrap(),
        lo: range.lo(),
        at_lo: system.landing(state, step, range.lo()).unwrap(),
        hi: range.hi(),
        at_hi: system.landing(state, step, range.hi()).unwrap(),
    }
}

/// The pair with this number.
fn pair_at(relation: &[Pair], number: usize) -> Pair
    requires { number < length relation.now }
    ensures { slice_get relation.now number ≡ Some result }
{
    relation[number]
}

/// The step that the fault is about, where it is about one.
fn step_of(bytes: &[u8], job: &Job, pairs: &[Pair], fault: Fault) -> Option<ShownStep>
    requires loaded { Loaded bytes.now job.now }
    requires pairs { pairs.now ≡ relation_of bytes.now }
    requires told { Some (judge_refusal fault) ≡ first_no (judge_asked (compared_in bytes.now)) }
    ensures { ShowsStep bytes.now fault result }
{
    match fault {
        Fault::LeftStep { pair, step } => {
            let units = setting(bytes, Side::Left).units;
            let both = pair_at(pairs, pair);
            Some(step_on(job.left(), units, &both.left, step))
        }
        Fault::RightStep { pair, step } => {
            let units = setting(bytes, Side::Right).units;
            let both = pair_at(pairs, pair);
            Some(step_on(job.right(), units, &both.right, step))
        }
        Fault::Ranges
        | Fault::TooMany
        | Fault::LeftUnlawful { .. }
        | Fault::RightUnlawful { .. }
        | Fault::Shown { .. } => None,
    }
}

/// The answer to a job, with the step that it is about. The answer is the one of the verdict. The heap makes the judge faster,
/// and changes nothing.
pub fn explain(heap: Global, bytes: &[u8]) -> Told
    ensures answers { answer_in result ≡ answer_of bytes.now }
    ensures shows { Shows bytes.now result }
{
    let job = match Job::load(bytes) {
        Ok(job) => job,
        Err(fault) => return Told::Malformed(fault),
    };
    // there is room for the pairs of every input that has passed its first questions
    let pairs = relation::<MOST_PAIRS>(bytes).unwrap();
    match judge(heap, job.left(), job.right(), pairs.as_slice()) {
        Ok(pass) => Told::Accepted {
            count: pass.count(),
        },
        Err(fault) => Told::Unlike {
            fault,
            step: step_of(bytes, &job, pairs.as_slice(), fault),
        },
    }
}
