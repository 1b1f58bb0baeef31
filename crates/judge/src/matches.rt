ghost use Rattle.std.specs.Prelude.{◌≡◌, ℕ, ◌++◌, ◌∷◌, [], true, OnOk, IfSome};
ghost use Rattle.lists.specs.Words.{Stands};
ghost use Rattle.judge.specs.Matching.{step_on};

use questions::Side;
use std::alloc::{AllocError, Global};

/// A step of the left state and a step of the right state that reply to each other, by their numbers.
#[derive(Clone, Copy, Drop)]
pub(crate) struct Match {
    pub(crate) left: usize,
    pub(crate) right: usize,
}

/// Room for matches, and for each right step where it has its match.
// Where a match stands is a hint: it is looked at before it counts.
#[derive(Drop)]
pub(crate) struct Matches {
    pub(crate) found: Vec<Match>,
    right: Vec<usize>,
}

/// Where a step without a match has its match.
const NONE: usize = usize::MAX;

impl Match {
    /// The number of its step on that side.
    fn step_on(&self, side: Side) -> usize
        ensures { result ≡ step_on side self.now }
    {
        match side {
            Side::Left => self.left,
            Side::Right => self.right,
        }
    }
}

impl Matches {
    pub(crate) fn new(heap: Global) -> Matches {
        Matches {
            found: Vec::new(heap),
            right: Vec::new(heap),
        }
    }

    /// No match yet, with so many right steps.
    pub(crate) fn clear(&mut self, right: usize) -> Result<(), AllocError>
        ensures { OnOk result (self.new.found.items ≡ []) }
    {
        self.found.clear();
        self.right.clear();
        self.right.resize(right, NONE)
    }

    pub(crate) fn enter(&mut self, found: Match) -> Result<(), AllocError>
        ensures { OnOk result (self.new.found.items ≡ self.old.found.items ++ found ∷ []) }
    {
        if let Some(place) = self.right.get_mut(found.right) {
            *place = self.found.len();
        }
        self.found.push(found)?;
        Ok(())
    }

    /// The match that may be that of the step, which is the one with that number among the firsts of its side.
    // The left firsts are matched in their order.
    fn of(&self, side: Side, number: usize, step: usize) -> Option<&Match>
        ensures { IfSome result (λ m. (k : ℕ) × Stands self.now.found.items m.now k) }
    {
        let place = match side {
            Side::Left => number,
            Side::Right => *self.right.get(step)?,
        };
        self.found.get(place)
    }

    /// Whether the step, which is the one with that number among the firsts of its side, has a match.
    pub(crate) fn has(&self, side: Side, number: usize, step: usize) -> bool
        ensures { result ≡ true → (k : ℕ) × (m : Match) × Stands self.now.found.items m k × (step_on side m ≡ step) }
    {
        match self.of(side, number, step) {
            Some(found) => found.step_on(side) == step,
            None => false,
        }
    }
}
