ghost use Rattle.std.specs.Prelude.{◌≡◌, ℕ, ◌<◌, IfSome, Decides};
ghost use Rattle.questions.specs.Asking.{first_no, refusal_of};
ghost use Rattle.judge.specs.Comparing.{comparing, meant};
ghost use Rattle.judge.specs.Likeness.{Reply};
ghost use Rattle.judge.specs.Judged.{steps_asked, pair_asked, judge_refusal, Judged};

use crate::aligned::Aligned;
use crate::comparison::{Comparison, opposite};
use crate::fault::Fault;
use crate::matches::Matches;
use crate::matching::Matching;
use crate::room::Room;
use model::state::Pair;
use questions::Side;
use std::alloc::Global;
use systems::System;

/// The most records that a relation may have.
pub const MOST: usize = 4096;

/// What the judge answers for a relation that it accepts. Nothing else makes one.
#[derive(Drop, Debug)]
pub struct Pass {
    count: usize,
}

impl Pass {
    /// How many records the accepted relation has.
    pub fn count(&self) -> usize
        ensures { result ≡ self.now.count }
    {
        self.count
    }
}

impl<L: System, R: System> Aligned<'_, L, R> {
    /// Whether the step has a reply among the first `count` steps of the pair's state on the opposite side.
    pub(crate) fn is_answered(&self, side: Side, pair: &Pair, step: u64, count: u64) -> bool
        ensures { Decides result ((j : ℕ) × ((j < count) × Reply (meant L.System.means R.System.means self.now.comparison.now) side pair.now step j)) }
    {
        self.first_reply_among(side, pair, step, count).is_some()
    }

    /// The first step of the pair's state on the side that has no reply.
    fn first_without_reply(&self, side: Side, pair: &Pair) -> Option<u64>
        ensures { result ≡ first_no (steps_asked (meant L.System.means R.System.means self.now.comparison.now) side pair.now) }
    {
        // counted once for all steps, since a network looks at all its ways to count them
        let count = self.comparison.step_count(opposite(side), pair);
        let mut steps = 0..self.comparison.step_count(side, pair);
        steps.find(|&step| !self.is_answered(side, pair, step, count))
    }

    /// The same, by what is held of the pair, if anything is.
    fn first_unanswered(
        &self,
        matching: &Option<Matching<'_, '_, '_, L, R>>,
        side: Side,
        pair: &Pair,
    ) -> Option<u64>
        requires { IfSome matching.now (λ x. (x.held.between.now ≡ self.now) × (x.held.pair.now ≡ pair.now)) }
        ensures { result ≡ first_no (steps_asked (meant L.System.means R.System.means self.now.comparison.now) side pair.now) }
    {
        match matching {
            Some(matching) => matching.first_without_reply(side),
            None => self.first_without_reply(side, pair),
        }
    }

    /// The questions to one record of the relation, whose number is `k`.
    fn judge_pair(
        &self,
        matching: &Option<Matching<'_, '_, '_, L, R>>,
        k: usize,
        pair: &Pair,
    ) -> Result<(), Fault>
        requires { IfSome matching.now (λ x. (x.held.between.now ≡ self.now) × (x.held.pair.now ≡ pair.now)) }
        ensures { refusal_of judge_refusal result ≡ first_no (pair_asked (meant L.System.means R.System.means self.now.comparison.now) k pair.now) }
    {
        let Comparison { left, right, .. } = self.comparison;
        if !left.is_lawful(&pair.left) {
            return Err(Fault::LeftUnlawful { pair: k });
        }
        if !right.is_lawful(&pair.right) {
            return Err(Fault::RightUnlawful { pair: k });
        }
        if left.shown(&pair.left) != right.shown(&pair.right) {
            return Err(Fault::Shown { pair: k });
        }
        if let Some(step) = self.first_unanswered(matching, Side::Left, pair) {
            return Err(Fault::LeftStep { pair: k, step });
        }
        if let Some(step) = self.first_unanswered(matching, Side::Right, pair) {
            return Err(Fault::RightStep { pair: k, step });
        }
        Ok(())
    }

    /// The same, with what can be held of the record.
    fn judge_record<'x, 'r, 'm>(
        &'x self,
        room: &'r mut Option<Room<L::Receive, R::Receive>>,
        matches: &'m mut Matches,
        k: usize,
        pair: &'x Pair,
    ) -> Result<(), Fault>
        ensures { refusal_of judge_refusal result ≡ first_no (pair_asked (meant L.System.means R.System.means self.now.comparison.now) k pair.now) }
    {
        let matching = self.matching(room, matches, pair);
        self.judge_pair(&matching, k, pair)
    }
}

/// A pass with the count of records where the relation is a late strong bisimulation between the systems, and else the
/// first no.
pub fn judge<'a, L: System, R: System>(
    heap: Global,
    left: &'a L,
    right: &'a R,
    relation: &'a [Pair],
) -> Result<Pass, Fault>
    ensures { Judged (comparing (L.System.means left.now) (R.System.means right.now) relation.now) result }
{
    let comparison = Comparison {
        left,
        right,
        relation,
    };
    let aligned = comparison.aligned().ok_or(Fault::Ranges)?;
    if relation.len() > MOST {
        return Err(Fault::TooMany);
    }
    let mut room = Room::make(heap, relation).ok();
    let mut matches = Matches::new(heap);
    for (k, pair) in relation.iter().enumerate() {
        aligned.judge_record(&mut room, &mut matches, k, pair)?;
    }
    Ok(Pass {
        count: relation.len(),
    })
}
