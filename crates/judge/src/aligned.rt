ghost use Rattle.std.specs.Prelude.{◌≡◌, MatchOption};
ghost use Rattle.judge.specs.Comparing.{meant, OneRange};

use crate::comparison::Comparison;
use systems::System;

/// A comparison of two systems that have one range.
#[derive(Drop)]
pub struct Aligned<'a, L: System, R: System> {
    pub comparison: &'a Comparison<'a, L, R>,
    ghost one_range: { OneRange (meant L.System.means R.System.means comparison.now) },
}

impl<L: System, R: System> Comparison<'_, L, R> {
    /// The comparison of systems that have one range; none where their ranges differ.
    pub fn aligned(&self) -> Option<Aligned<'_, L, R>>
        ensures { MatchOption result (OneRange (meant L.System.means R.System.means self.now) → ⊥) (λ x. x.comparison.now ≡ self.now) }
    {
        // no `then_some`: the ghost field holds in this branch alone
        if self.left.range() == self.right.range() {
            Some(Aligned { comparison: self })
        } else {
            None
        }
    }
}
