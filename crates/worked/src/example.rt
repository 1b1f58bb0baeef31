ghost use Rattle.std.specs.Prelude.{◌≡◌, ◌≤◌, length};
ghost use Rattle.model.specs.Bytes.{zero_unit};
ghost use Rattle.model.specs.declared.label.Label.TheVariants.{Silent};
ghost use Rattle.worked.specs.Entries.{one};
ghost use Rattle.worked.specs.Coded.{always, landing_of};

use crate::states::one;
use arrayvec::ArrayVec;
use model::group_set::GroupSet;
use model::label::Label;
use model::state::{Pair, State};
use model::unit_state::UnitState;
use model::value::Value;
use questions::Refusal;

/// How many steps an example names at the most.
pub const MOST_STEPS: usize = 8;

/// How many pairs the relation of an example has at the most.
pub const MOST_PAIRS: usize = 3;

/// A system of the table, by the bytes of its rows. Its range runs from -2 to 2, and its free groups or its channel set
/// are {0}.
#[derive(Clone, Copy)]
pub enum Source {
    /// So many units, none of them on more groups than the limit.
    Network {
        units: usize,
        limit: u8,
        rows: &'static [u8],
    },
    Sheet {
        rows: &'static [u8],
    },
}

/// Where a step lands, as a function of the value.
#[derive(Clone, Copy)]
pub enum Landing {
    /// In this state at every value.
    Always(State),
    /// In the state of these two units, the second of which has the value in its first register.
    ByValue { one: UnitState, other: UnitState },
}

#[derive(Clone, Copy)]
pub struct Step {
    pub label: Label,
    pub landing: Landing,
}

/// What is asked, and what must come out.
#[derive(Drop)]
pub enum Example {
    /// All steps of a state.
    Steps {
        of: Source,
        state: State,
        steps: ArrayVec<Step, MOST_STEPS>,
    },
    /// The verdict on a relation: the count of an accepted one, and else the first no.
    Verdict {
        left: Source,
        right: Source,
        relation: ArrayVec<Pair, MOST_PAIRS>,
        verdict: Result<usize, Refusal>,
    },
}

/// What stands in room that no step takes.
impl Default for Step {
    ghost is_default = { λ step. step ≡ always Silent (one zero_unit) };

    fn default() -> Step {
        Step {
            label: Label::Silent,
            landing: Landing::Always(one(UnitState::default())),
        }
    }
}

/// The items, in room for `MOST` of them.
pub(crate) fn held<T: Copy + Default, const MOST: usize>(items: &[T]) -> ArrayVec<T, MOST>
    requires { length items.now ≤ MOST }
    ensures { result.items ≡ items.now }
{
    // cannot fail: there is room for so many
    items.try_into().unwrap()
}

impl Landing {
    /// The state in which the step lands at a value.
    pub fn at(self, value: Value) -> State
        ensures { result ≡ landing_of self value }
    {
        let none = UnitState::default();
        match self {
            Landing::Always(state) => state,
            Landing::ByValue { one, other } => {
                let filled = UnitState {
                    first: value,
                    ..other
                };
                State {
                    units: [one, filled, none, none, none, none],
                }
            }
        }
    }
}
