ghost use Rattle.std.specs.Prelude.{◌≡◌, ℕ, true, false, [], length, OnOk, IfSome};
ghost use Rattle.lists.specs.Words.{Stands};
ghost use Rattle.systems.specs.Meaning.{receives};
ghost use Rattle.judge.specs.Entering.{entered};
ghost use Rattle.judge.specs.Firsts.{Firsts};

use crate::buckets::Buckets;
use crate::held::nth;
use crate::index::{States, is_state};
use crate::reply::is_receive;
use model::label::Label;
use std::alloc::AllocError;
use systems::listed::Listed;

/// A listed step that repeats no earlier one.
#[derive(Clone, Copy, Drop)]
pub(crate) struct First {
    pub(crate) step: usize,
    pub(crate) label: Label,
}

/// Whether the steps are listed alike. Steps that do not land are not told to be.
fn are_alike(one: &Listed, other: &Listed) -> bool
    ensures { result ≡ true → one.now ≡ other.now }
{
    match (&one.landing, &other.landing) {
        (Some(own), Some(landing)) => one.label == other.label && is_state(own, landing),
        _ => false,
    }
}

/// Whether the step, which is no receive, is the first one again.
fn is_again(listed: &[Listed], first: First, step: &Listed) -> bool
    ensures { result ≡ true → Stands listed.now step.now first.step × (receives step.now.label ≡ false) }
{
    if first.label != step.label || is_receive(&step.label) {
        return false;
    }
    match nth(listed, first.step) {
        Some(earlier) => are_alike(earlier, step),
        None => false,
    }
}

/// The number of an earlier step that the step, which lands in the state with that number, is again, if one is found.
fn earlier(
    listed: &[Listed],
    firsts: &Buckets<First>,
    landing: usize,
    step: &Listed,
) -> Option<usize>
    ensures { IfSome result (λ j. (k : ℕ) × (f : First) × Stands (entered firsts.now) f k × (f.step ≡ j) × Stands listed.now step.now j × (receives step.now.label ≡ false)) }
{
    firsts.find(landing, |first| {
        is_again(listed, first, step).then_some(first.step)
    })
}

/// The number of the state in which a step lands, or one past all numbers.
fn landing_number(states: &States, step: &Listed) -> usize {
    match &step.landing {
        Some(landing) => states.number_of(landing).unwrap_or(usize::MAX),
        None => usize::MAX,
    }
}

/// Enters the steps that repeat no earlier one by the numbers of the states in which they land.
pub(crate) fn add_firsts(
    listed: &[Listed],
    states: &States,
    firsts: &mut Buckets<First>,
) -> Result<(), AllocError>
    requires { entered firsts.old ≡ [] }
    ensures { OnOk result (Firsts listed.now (length listed.now) (entered firsts.new)) }
{
    for (number, step) in listed.iter().enumerate() {
        let landing = landing_number(states, step);
        if earlier(listed, firsts, landing, step).is_none() {
            let label = step.label;
            firsts.enter(
                landing,
                First {
                    step: number,
                    label,
                },
            )?;
        }
    }
    Ok(())
}
