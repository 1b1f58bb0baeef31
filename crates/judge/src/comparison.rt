ghost use Rattle.std.specs.Prelude.{◌≡◌, length};
ghost use Rattle.judge.specs.Comparing.{meant, opposed, pair_from, steps_on, label_on, landing_on};

use model::label::Label;
use model::state::{Pair, State};
use model::value::Value;
use questions::Side;
use systems::System;

/// Two systems and a relation between them: pairs of a left state and a right state, in any order, repeats allowed.
#[derive(Drop)]
pub struct Comparison<'a, L, R> {
    pub left: &'a L,
    pub right: &'a R,
    pub relation: &'a [Pair],
}

// A side and a pair are of other crates, to which an opposite side means nothing: so functions here, and no methods there.
pub fn opposite(side: Side) -> Side
    ensures { result ≡ opposed side }
{
    match side {
        Side::Left => Side::Right,
        Side::Right => Side::Left,
    }
}

/// The pair of a state on a side and a state on the opposite side, the left one first.
pub fn pair_from(side: Side, own: State, other: State) -> Pair
    ensures { result ≡ pair_from side own other }
{
    match side {
        Side::Left => Pair {
            left: own,
            right: other,
        },
        Side::Right => Pair {
            left: other,
            right: own,
        },
    }
}

// The two systems are of two types, so each question to the system on a side is put by a match on the side. The clauses say
// what the systems mean, and no model does: a meaning holds functions, which the value of a model may not.
impl<L: System, R: System> Comparison<'_, L, R> {
    /// How many steps the pair's state on that side has.
    pub fn step_count(&self, side: Side, pair: &Pair) -> u64
        ensures { result ≡ length (steps_on side (meant L.System.means R.System.means self.now) pair.now) }
    {
        match side {
            Side::Left => self.left.step_count(&pair.left),
            Side::Right => self.right.step_count(&pair.right),
        }
    }

    /// The label of a step of the pair's state on that side, or none where the list has no such step.
    pub fn label(&self, side: Side, pair: &Pair, step: u64) -> Option<Label>
        ensures { result ≡ label_on side (meant L.System.means R.System.means self.now) pair.now step }
    {
        match side {
            Side::Left => self.left.label(&pair.left, step),
            Side::Right => self.right.label(&pair.right, step),
        }
    }

    /// Where a step of the pair's state on that side lands at a value, or none where the list has no such step or the value
    /// is out of that system's range.
    pub fn landing(&self, side: Side, pair: &Pair, step: u64, value: Value) -> Option<State>
        ensures { result ≡ landing_on side (meant L.System.means R.System.means self.now) pair.now step value }
    {
        match side {
            Side::Left => self.left.landing(&pair.left, step, value),
            Side::Right => self.right.landing(&pair.right, step, value),
        }
    }
}
