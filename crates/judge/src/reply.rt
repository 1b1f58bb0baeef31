ghost use Rattle.std.specs.Prelude.{◌≡◌, true, ◌<◌, ℤ, Some, Decides};
ghost use Rattle.lists.specs.Words.{FirstOf};
ghost use Rattle.systems.specs.Meaning.{receives, in_range_of};
ghost use Rattle.judge.specs.Comparing.{meant, label_on};
ghost use Rattle.judge.specs.Likeness.{LandsAt, Reply};

use crate::aligned::Aligned;
use crate::comparison::{Comparison, opposite, pair_from};
use lookup::first_equal;
use model::label::Label;
use model::state::Pair;
use model::value::Value;
use questions::Side;
use systems::System;

pub(crate) fn is_receive(label: &Label) -> bool
    ensures { result ≡ receives label.now }
{
    matches!(label, Label::Receive { .. })
}

/// A step of the pair's state on a side, to which the state on the opposite side is to reply.
#[derive(Drop)]
struct Challenge<'a, L: System, R: System> {
    between: &'a Aligned<'a, L, R>,
    side: Side,
    pair: &'a Pair,
    step: u64,
    label: Label,
    ghost labeled: { label_on side (meant L.System.means R.System.means between.now.comparison.now) pair.now step ≡ Some label },
}

impl<L: System, R: System> Challenge<'_, L, R> {
    /// Whether the step and the step `reply` both land at the value, and their landings form a record of the relation.
    fn lands_at(&self, reply: u64, value: Value) -> bool
        ensures { Decides result (LandsAt (meant L.System.means R.System.means self.now.between.now.comparison.now) self.now.side self.now.pair.now self.now.step reply value) }
    {
        let comparison = self.between.comparison;
        let landings = (
            comparison.landing(self.side, self.pair, self.step, value),
            comparison.landing(opposite(self.side), self.pair, reply, value),
        );
        match landings {
            (Some(own), Some(other)) => first_equal(
                comparison.relation,
                &pair_from(self.side, own, other),
            ).is_some(),
            _ => false,
        }
    }

    /// The same at every value in the range.
    fn lands_at_each(&self, reply: u64) -> bool
        ensures { Decides result ((v : ℤ) → in_range_of (meant L.System.means R.System.means self.now.between.now.comparison.now).left v ≡ true → LandsAt (meant L.System.means R.System.means self.now.between.now.comparison.now) self.now.side self.now.pair.now self.now.step reply v) }
    {
        let range = self.between.comparison.left.range();
        (range.lo()..=range.hi()).all(|value| self.lands_at(reply, value))
    }

    /// Whether the step `reply` of the pair's state on the opposite side is a reply. Only a receive can land differently by
    /// value, so any other step is tried at one value.
    fn is_reply(&self, reply: u64) -> bool
        ensures { Decides result (Reply (meant L.System.means R.System.means self.now.between.now.comparison.now) self.now.side self.now.pair.now self.now.step reply) }
    {
        let comparison = self.between.comparison;
        if comparison.label(opposite(self.side), self.pair, reply) != Some(self.label) {
            return false;
        }
        if is_receive(&self.label) {
            self.lands_at_each(reply)
        } else {
            self.lands_at(reply, comparison.left.range().lo())
        }
    }

    /// The first reply among the first `count` steps of the pair's state on the opposite side.
    fn first_among(&self, count: u64) -> Option<u64>
        ensures { FirstOf (λ j. (j < count) × Reply (meant L.System.means R.System.means self.now.between.now.comparison.now) self.now.side self.now.pair.now self.now.step j) result }
    {
        (0..count).find(|&reply| self.is_reply(reply))
    }
}

impl<L: System, R: System> Aligned<'_, L, R> {
    /// Whether the step `reply` of the pair's state on the opposite side is a reply to the step on this side.
    pub(crate) fn is_reply(&self, side: Side, pair: &Pair, step: u64, reply: u64) -> bool
        ensures { Decides result (Reply (meant L.System.means R.System.means self.now.comparison.now) side pair.now step reply) }
    {
        match self.comparison.label(side, pair, step) {
            Some(label) => Challenge {
                between: self,
                side,
                pair,
                step,
                label,
            }
            .is_reply(reply),
            None => false,
        }
    }

    /// The first reply to the step among the first `count` steps of the pair's state on the opposite side.
    pub(crate) fn first_reply_among(
        &self,
        side: Side,
        pair: &Pair,
        step: u64,
        count: u64,
    ) -> Option<u64>
        ensures { FirstOf (λ j. (j < count) × Reply (meant L.System.means R.System.means self.now.comparison.now) side pair.now step j) result }
    {
        let challenge = Challenge {
            between: self,
            side,
            pair,
            step,
            label: self.comparison.label(side, pair, step)?,
        };
        challenge.first_among(count)
    }
}

impl<L: System, R: System> Comparison<'_, L, R> {
    /// The first step in list order of the pair's state on the opposite side that is a reply to the step on this side. There
    /// is none between systems of different ranges.
    pub fn first_reply(&self, side: Side, pair: &Pair, step: u64) -> Option<u64>
        ensures { FirstOf (Reply (meant L.System.means R.System.means self.now) side pair.now step) result }
    {
        let aligned = self.aligned()?;
        let count = self.step_count(opposite(side), pair);
        aligned.first_reply_among(side, pair, step, count)
    }
}
