ghost use Rattle.std.specs.Prelude.{◌≡◌, OnOk, IfSome, Decides};
ghost use Rattle.std.specs.List.{All};
ghost use Rattle.questions.specs.Asking.{first_no};
ghost use Rattle.judge.specs.Comparing.{meant};
ghost use Rattle.judge.specs.Likeness.{Answered};
ghost use Rattle.judge.specs.Matching.{Replying};
ghost use Rattle.judge.specs.Judged.{steps_asked};

use crate::aligned::Aligned;
use crate::buckets::Entry;
use crate::firsts::First;
use crate::held::Held;
use crate::matches::{Match, Matches};
use crate::room::Room;
use crate::steps::list_steps;
use model::state::Pair;
use questions::Side;
use std::alloc::AllocError;
use systems::System;

/// A pair whose steps are held, with those that were found to reply to each other.
// Each match is looked at once, and answers for both of its steps.
#[derive(Drop)]
pub(crate) struct Matching<'a, 'r, 'm, L: System, R: System> {
    pub(crate) held: Held<'a, 'r, L, R>,
    matches: &'m Matches,
    ghost each: { ∥ All (Replying (meant L.System.means R.System.means held.between.now.comparison.now) held.pair.now) matches.now.found.items ∥₁ },
}

impl<L: System, R: System> Held<'_, '_, L, R> {
    /// The match of a step of the left state, if one is found.
    fn match_of(&self, first: &Entry<First>) -> Option<Match>
        ensures { IfSome result (λ m. Replying (meant L.System.means R.System.means self.now.between.now.comparison.now) self.now.pair.now m) }
    {
        let held_step = self.held_step(Side::Left, first)?;
        let left = held_step.step;
        let right = held_step.finds_reply()?;
        Some(Match { left, right })
    }

    /// Matches the steps of the left state, up to the first for which no reply is found.
    fn match_steps(&self, matches: &mut Matches) -> Result<(), AllocError>
        ensures { OnOk result (All (Replying (meant L.System.means R.System.means self.now.between.now.comparison.now) self.now.pair.now) matches.new.found.items) }
    {
        matches.clear(self.right.listed.len())?;
        for first in self.firsts(Side::Left).entries() {
            match self.match_of(first) {
                Some(found) => matches.enter(found)?,
                None => return Ok(()),
            }
        }
        Ok(())
    }
}

impl<L: System, R: System> Matching<'_, '_, '_, L, R> {
    /// Whether the step, which is the one with that number among the firsts of the side, has a reply.
    fn is_answered(&self, side: Side, number: usize, first: &Entry<First>) -> bool
        ensures { Decides result (Answered (meant L.System.means R.System.means self.now.held.between.now.comparison.now) side self.now.held.pair.now first.now.item.step) }
    {
        if self.matches.has(side, number, first.item.step) {
            return true;
        }
        match self.held.held_step(side, first) {
            Some(held_step) => held_step.is_answered(),
            None => false,
        }
    }

    /// The first step of the pair's state on the side that has no reply.
    // A step that is an earlier one again is answered where that one is.
    pub(crate) fn first_without_reply(&self, side: Side) -> Option<u64>
        ensures { result ≡ first_no (steps_asked (meant L.System.means R.System.means self.now.held.between.now.comparison.now) side self.now.held.pair.now) }
    {
        for (number, first) in self.held.firsts(side).entries().iter().enumerate() {
            if !self.is_answered(side, number, first) {
                return Some(first.item.step as u64);
            }
        }
        None
    }
}

impl<L: System, R: System> Aligned<'_, L, R> {
    /// The pair with the steps of both states; none where there are too many to hold, or memory is wanting.
    pub(crate) fn matching<'a, 'r, 'm>(
        &'a self,
        room: &'r mut Option<Room<L::Receive, R::Receive>>,
        matches: &'m mut Matches,
        pair: &'a Pair,
    ) -> Option<Matching<'a, 'r, 'm, L, R>>
        ensures between { IfSome result (λ x. x.held.between.now ≡ self.now) }
        ensures pair { IfSome result (λ x. x.held.pair.now ≡ pair.now) }
    {
        let room = room.as_mut()?;
        let (left, right) = (self.comparison.left, self.comparison.right);
        let lowest = left.range().lo();
        let states = room.index.on(Side::Left);
        list_steps(&mut room.left, left, &pair.left, lowest, states).ok()?;
        let states = room.index.on(Side::Right);
        list_steps(&mut room.right, right, &pair.right, lowest, states).ok()?;
        let room = &*room;
        let held = Held {
            between: self,
            index: &room.index,
            pair,
            lowest,
            left: &room.left,
            right: &room.right,
        };
        held.match_steps(matches).ok()?;
        Some(Matching { held, matches })
    }
}
