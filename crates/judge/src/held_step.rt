ghost use Rattle.std.specs.Prelude.{◌≡◌, ℕ, ℤ, true, false, IfSome, Some, Decides};
ghost use Rattle.lists.specs.Words.{Stands};
ghost use Rattle.model.specs.declared.state.State.{State};
ghost use Rattle.systems.specs.Meaning.{receives, in_range_of};
ghost use Rattle.judge.specs.Comparing.{meant, opposed, pair_from, listing_on};
ghost use Rattle.judge.specs.Likeness.{Holds, LandsAt, Reply, Answered, SeenAt};

use crate::comparison::opposite;
use crate::held::{Held, nth};
use crate::index::{is_state, state_on};
use crate::reply::is_receive;
use lookup::Exact;
use model::state::{Pair, State};
use questions::Side;
use systems::System;
use systems::listed::Listed;

/// No record has this number.
const NO_RECORD: usize = usize::MAX;

/// A held step of the pair's state on a side, to which the state on the opposite side is to reply.
#[derive(Drop)]
pub(crate) struct HeldStep<'a, L: System, R: System> {
    pub(crate) held: &'a Held<'a, 'a, L, R>,
    pub(crate) side: Side,
    pub(crate) step: usize,
    /// The number of the state in which it lands.
    pub(crate) landing: usize,
    pub(crate) listed: &'a Listed,
    ghost at: { Stands (listing_on side (meant L.System.means R.System.means held.now.between.now.comparison.now) held.now.pair.now held.now.lowest) listed.now step },
}

fn is_equal<T: Exact>(one: &T, other: &T) -> bool
    ensures { Decides result (one.now ≡ other.now) }
{
    *one == *other
}

/// Whether both steps have one label, which is no receive's.
fn are_alike(own: &Listed, other: &Listed) -> bool
    ensures { result ≡ true → (own.now.label ≡ other.now.label) × (receives own.now.label ≡ false) }
{
    own.label == other.label && !is_receive(&own.label)
}

/// Whether both steps land, and the record holds their landings.
fn are_landings(relation: &[Pair], side: Side, own: &Listed, other: &Listed, place: usize) -> bool
    ensures { result ≡ true → (a : State) × (b : State) × (own.now.landing ≡ Some a) × (other.now.landing ≡ Some b) × Holds relation.now (pair_from side a b) }
{
    match (&own.landing, &other.landing, nth(relation, place)) {
        (Some(own), Some(other), Some(held)) => {
            is_state(state_on(side, held), own) && is_state(state_on(opposite(side), held), other)
        }
        _ => false,
    }
}

impl<L: System, R: System> HeldStep<'_, L, R> {
    fn relation(&self) -> &[Pair]
        ensures { result.now ≡ self.now.held.now.between.now.comparison.now.relation.now }
    {
        self.held.between.comparison.relation
    }

    /// Whether the step `reply` is a reply that is seen at once: it is no receive, and the record holds the landings.
    fn is_seen_reply(&self, reply: usize, place: usize) -> bool
        ensures { result ≡ true → Reply (meant L.System.means R.System.means self.now.held.now.between.now.comparison.now) self.now.side self.now.held.now.pair.now self.now.step reply }
    {
        match self.held.step(opposite(self.side), reply) {
            Some(other) => {
                are_alike(self.listed, other)
                    && are_landings(self.relation(), self.side, self.listed, other, place)
            }
            None => false,
        }
    }

    /// Whether this step and the step `reply` land at every value, in records of the relation; none where one of them is not
    /// held as a receive. They may form the record with the number `place` at some.
    fn form_records(&self, reply: usize, place: usize) -> Option<bool>
        ensures { IfSome result (λ b. Decides b ((v : ℤ) → in_range_of (meant L.System.means R.System.means self.now.held.now.between.now.comparison.now).left v ≡ true → LandsAt (meant L.System.means R.System.means self.now.held.now.between.now.comparison.now) self.now.side self.now.held.now.pair.now self.now.step reply v)) }
    {
        match self.side {
            Side::Left => self.held.form_records(self.step, reply, place),
            Side::Right => self.held.form_records(reply, self.step, place),
        }
    }

    /// Whether the step `reply` is a reply to this step, which is a receive. They may form the record with the number `place`
    /// at some value.
    fn is_received_reply(&self, reply: usize, place: usize) -> bool
        ensures { Decides result (Reply (meant L.System.means R.System.means self.now.held.now.between.now.comparison.now) self.now.side self.now.held.now.pair.now self.now.step reply) }
    {
        let held = self.held;
        let Some(other) = held.step(opposite(self.side), reply) else {
            return false;
        };
        if !is_equal(&other.label, &self.listed.label) {
            return false;
        }
        match self.form_records(reply, place) {
            Some(form_records) => form_records,
            None => held
                .between
                .is_reply(self.side, held.pair, self.step as u64, reply as u64),
        }
    }

    /// Whether the step `reply`, found with the record, is a reply.
    fn is_found_reply(&self, reply: usize, place: usize) -> bool
        ensures { result ≡ true → Reply (meant L.System.means R.System.means self.now.held.now.between.now.comparison.now) self.now.side self.now.held.now.pair.now self.now.step reply }
    {
        if is_receive(&self.listed.label) {
            self.is_received_reply(reply, place)
        } else {
            self.is_seen_reply(reply, place)
        }
    }

    /// A reply, if one is found, that lands on the other state of the record.
    fn finds_reply_at(&self, place: usize) -> Option<usize>
        ensures { IfSome result (λ j. Reply (meant L.System.means R.System.means self.now.held.now.between.now.comparison.now) self.now.side self.now.held.now.pair.now self.now.step j) }
    {
        let opposite = opposite(self.side);
        let landing = self.held.index.on(opposite).number_at(place)?;
        self.held.firsts(opposite).find(landing, |first| {
            let is_reply = first.label == self.listed.label
                && self.is_found_reply(first.step, place);
            is_reply.then_some(first.step)
        })
    }

    /// A reply that is found by the numbers of the states, if any is. What is found is a reply, but one may be overlooked.
    pub(crate) fn finds_reply(&self) -> Option<usize>
        ensures { IfSome result (λ j. Reply (meant L.System.means R.System.means self.now.held.now.between.now.comparison.now) self.now.side self.now.held.now.pair.now self.now.step j) }
    {
        let states = self.held.index.on(self.side);
        states
            .records
            .find(self.landing, |place| self.finds_reply_at(place))
    }

    /// Whether the step with that number on the opposite side has this one's label, and lands on the state.
    fn is_alike(&self, number: usize, landing: &State) -> bool
        ensures { Decides result (Stands (listing_on (opposed self.now.side) (meant L.System.means R.System.means self.now.held.now.between.now.comparison.now) self.now.held.now.pair.now self.now.held.now.lowest) (record { label = self.now.listed.now.label; landing = Some landing.now }) number) }
    {
        let Some(other) = self.held.step(opposite(self.side), number) else {
            return false;
        };
        match &other.landing {
            Some(own) => is_equal(&other.label, &self.listed.label) && is_equal(own, landing),
            None => false,
        }
    }

    /// Whether the record with that number holds this step's landing, and a step with its label lands on the record's other state.
    fn is_seen_at(&self, number: usize) -> bool
        ensures { Decides result (SeenAt (meant L.System.means R.System.means self.now.held.now.between.now.comparison.now) self.now.side self.now.held.now.pair.now self.now.held.now.lowest self.now.listed.now number) }
    {
        let (Some(own), Some(held)) = (&self.listed.landing, nth(self.relation(), number)) else {
            return false;
        };
        if !is_equal(own, state_on(self.side, held)) {
            return false;
        }
        let opposite = opposite(self.side);
        let other = state_on(opposite, held);
        (0..self.held.count(opposite) as usize)
            .find(|&reply| self.is_alike(reply, other))
            .is_some()
    }

    /// Whether the step, which is no receive, has a reply.
    fn has_seen_reply(&self) -> bool
        requires { receives self.now.listed.now.label ≡ false }
        ensures { Decides result (Answered (meant L.System.means R.System.means self.now.held.now.between.now.comparison.now) self.now.side self.now.held.now.pair.now self.now.step) }
    {
        (0..self.relation().len())
            .find(|&place| self.is_seen_at(place))
            .is_some()
    }

    /// Whether the step, which is a receive, has a reply.
    fn has_received_reply(&self) -> bool
        ensures { Decides result (Answered (meant L.System.means R.System.means self.now.held.now.between.now.comparison.now) self.now.side self.now.held.now.pair.now self.now.step) }
    {
        (0..self.held.count(opposite(self.side)) as usize)
            .find(|&reply| self.is_received_reply(reply, NO_RECORD))
            .is_some()
    }

    /// Whether the step has a reply, looked for among all steps of the opposite side.
    fn has_reply(&self) -> bool
        ensures { Decides result (Answered (meant L.System.means R.System.means self.now.held.now.between.now.comparison.now) self.now.side self.now.held.now.pair.now self.now.step) }
    {
        if is_receive(&self.listed.label) {
            self.has_received_reply()
        } else {
            self.has_seen_reply()
        }
    }

    /// Whether the step has a reply.
    pub(crate) fn is_answered(&self) -> bool
        ensures { Decides result (Answered (meant L.System.means R.System.means self.now.held.now.between.now.comparison.now) self.now.side self.now.held.now.pair.now self.now.step) }
    {
        self.finds_reply().is_some() || self.has_reply()
    }
}
