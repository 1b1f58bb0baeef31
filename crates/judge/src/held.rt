ghost use Rattle.std.specs.Prelude.{◌≡◌, length, IfSome, IfNone, None, MatchOption};
ghost use Rattle.std.specs.List.{slice_get};
ghost use Rattle.lists.specs.Words.{Stands};
ghost use Rattle.systems.specs.Listing.{listing};
ghost use Rattle.judge.specs.Comparing.{meant, steps_on, listing_on};
ghost use Rattle.judge.specs.Entering.{entered};
ghost use Rattle.judge.specs.Firsts.{Firsts};
ghost use Rattle.judge.specs.Receiving.{Tell};

use crate::aligned::Aligned;
use crate::buckets::{Buckets, Entry};
use crate::firsts::First;
use crate::held_step::HeldStep;
use crate::index::Index;
use crate::steps::Steps;
use model::state::Pair;
use model::value::Value;
use questions::Side;
use systems::System;
use systems::listed::Listed;

pub(crate) fn nth<T>(items: &[T], number: usize) -> Option<&T>
    ensures { MatchOption result (slice_get items.now number ≡ None) (λ x. Stands items.now x.now number) }
{
    items.get(number)
}

/// A pair of which the steps of both states are held, with their landings at the lowest value.
#[derive(Drop)]
pub(crate) struct Held<'a, 'r, L: System, R: System> {
    pub(crate) between: &'a Aligned<'a, L, R>,
    pub(crate) index: &'r Index,
    pub(crate) pair: &'a Pair,
    pub(crate) lowest: Value,
    pub(crate) left: &'r Steps<L::Receive>,
    pub(crate) right: &'r Steps<R::Receive>,
    ghost low: { lowest ≡ (L.System.means between.now.comparison.now.left.now).lo },
    ghost left_listed: { left.now.listed.items ≡ listing (L.System.means between.now.comparison.now.left.now) pair.now.left lowest },
    ghost right_listed: { right.now.listed.items ≡ listing (R.System.means between.now.comparison.now.right.now) pair.now.right lowest },
    ghost left_told: { Tell ((L.System.means between.now.comparison.now.left.now).steps pair.now.left) (L.System.receive_by between.now.comparison.now.left.now pair.now.left) left.now.receiving.items left.now.told_by.items },
    ghost right_told: { Tell ((R.System.means between.now.comparison.now.right.now).steps pair.now.right) (R.System.receive_by between.now.comparison.now.right.now pair.now.right) right.now.receiving.items right.now.told_by.items },
    ghost left_firsts: { ∥ Firsts left.now.listed.items (length left.now.listed.items) (entered left.now.firsts) ∥₁ },
    ghost right_firsts: { ∥ Firsts right.now.listed.items (length right.now.listed.items) (entered right.now.firsts) ∥₁ },
}

impl<L: System, R: System> Held<'_, '_, L, R> {
    pub(crate) fn count(&self, side: Side) -> u64
        ensures { result ≡ length (steps_on side (meant L.System.means R.System.means self.now.between.now.comparison.now) self.now.pair.now) }
    {
        match side {
            Side::Left => self.left.listed.len() as u64,
            Side::Right => self.right.listed.len() as u64,
        }
    }

    /// A step of the pair's state on that side.
    pub(crate) fn step(&self, side: Side, number: usize) -> Option<&Listed>
        ensures none { IfNone result (slice_get (listing_on side (meant L.System.means R.System.means self.now.between.now.comparison.now) self.now.pair.now self.now.lowest) number ≡ None) }
        ensures there { IfSome result (λ y. Stands (listing_on side (meant L.System.means R.System.means self.now.between.now.comparison.now) self.now.pair.now self.now.lowest) y.now number) }
    {
        match side {
            Side::Left => nth(&self.left.listed, number),
            Side::Right => nth(&self.right.listed, number),
        }
    }

    /// The steps of the pair's state on that side that repeat no earlier one.
    pub(crate) fn firsts(&self, side: Side) -> &Buckets<First>
        ensures { ∥ Firsts (listing_on side (meant L.System.means R.System.means self.now.between.now.comparison.now) self.now.pair.now self.now.lowest) (length (listing_on side (meant L.System.means R.System.means self.now.between.now.comparison.now) self.now.pair.now self.now.lowest)) (entered result.now) ∥₁ }
    {
        match side {
            Side::Left => &self.left.firsts,
            Side::Right => &self.right.firsts,
        }
    }

    pub(crate) fn held_step(&self, side: Side, first: &Entry<First>) -> Option<HeldStep<'_, L, R>>
        ensures none { IfNone result (slice_get (listing_on side (meant L.System.means R.System.means self.now.between.now.comparison.now) self.now.pair.now self.now.lowest) first.now.item.step ≡ None) }
        ensures side { IfSome result (λ x. x.side ≡ side) }
        ensures step { IfSome result (λ x. x.step ≡ first.now.item.step) }
        ensures held { IfSome result (λ x. x.held.now ≡ self.now) }
    {
        let step = first.item.step;
        Some(HeldStep {
            held: self,
            side,
            step,
            landing: first.bucket,
            listed: self.step(side, step)?,
        })
    }
}
