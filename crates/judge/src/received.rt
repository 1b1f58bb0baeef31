ghost use Rattle.std.specs.Prelude.{◌≡◌, ℤ, true, IfSome, Decides};
ghost use Rattle.lists.specs.Words.{Stands};
ghost use Rattle.questions.specs.declared.Side.TheVariants.{Left, Right};
ghost use Rattle.systems.specs.Meaning.{in_range_of};
ghost use Rattle.judge.specs.Comparing.{meant, landing_on};
ghost use Rattle.judge.specs.Likeness.{Holds, LandsAt};

use crate::held::{Held, nth};
use crate::index::is_pair;
use model::state::{Pair, State};
use model::value::Value;
use systems::System;

/// Held receives of both states of the pair, by what the systems tell them by.
#[derive(Drop)]
struct Received<'a, L: System, R: System> {
    held: &'a Held<'a, 'a, L, R>,
    left_step: usize,
    right_step: usize,
    left: &'a L::Receive,
    right: &'a R::Receive,
    /// A record of the relation in which they may land.
    known: Option<&'a Pair>,
    ghost left_at: { Stands ((L.System.means held.now.between.now.comparison.now.left.now).steps held.now.pair.now.left) (L.System.receive_by held.now.between.now.comparison.now.left.now held.now.pair.now.left left.now) left_step },
    ghost right_at: { Stands ((R.System.means held.now.between.now.comparison.now.right.now).steps held.now.pair.now.right) (R.System.receive_by held.now.between.now.comparison.now.right.now held.now.pair.now.right right.now) right_step },
    ghost holds: { ∥ IfSome known (λ q. Holds held.now.between.now.comparison.now.relation.now q.now) ∥₁ },
}

impl<L: System, R: System> Received<'_, L, R> {
    fn left_landing(&self, value: Value) -> Option<State>
        ensures { result ≡ landing_on Left (meant L.System.means R.System.means self.now.held.now.between.now.comparison.now) self.now.held.now.pair.now self.now.left_step value }
    {
        let Held { between, pair, .. } = self.held;
        between
            .comparison
            .left
            .landing_by(&pair.left, self.left, value)
    }

    fn right_landing(&self, value: Value) -> Option<State>
        ensures { result ≡ landing_on Right (meant L.System.means R.System.means self.now.held.now.between.now.comparison.now) self.now.held.now.pair.now self.now.right_step value }
    {
        let Held { between, pair, .. } = self.held;
        between
            .comparison
            .right
            .landing_by(&pair.right, self.right, value)
    }

    /// Whether the pair is the known record.
    fn is_known(&self, pair: &Pair) -> bool
        ensures { result ≡ true → Holds self.now.held.now.between.now.comparison.now.relation.now pair.now }
    {
        match self.known {
            Some(known) => is_pair(known, pair),
            None => false,
        }
    }

    /// Whether the relation has the record.
    fn holds(&self, pair: &Pair) -> bool
        ensures { Decides result (Holds self.now.held.now.between.now.comparison.now.relation.now pair.now) }
    {
        let Held { between, index, .. } = self.held;
        // Often they land at each value as they do at the lowest.
        self.is_known(pair) || index.holds(between.comparison.relation, pair)
    }

    /// Whether both land at the value, and their landings form a record of the relation.
    fn form_record(&self, value: Value) -> bool
        ensures { Decides result (LandsAt (meant L.System.means R.System.means self.now.held.now.between.now.comparison.now) Left self.now.held.now.pair.now self.now.left_step self.now.right_step value) }
    {
        match (self.left_landing(value), self.right_landing(value)) {
            (Some(left), Some(right)) => self.holds(&Pair { left, right }),
            _ => false,
        }
    }

    /// The same at every value in the range.
    fn form_records(&self) -> bool
        ensures { Decides result ((v : ℤ) → in_range_of (meant L.System.means R.System.means self.now.held.now.between.now.comparison.now).left v ≡ true → LandsAt (meant L.System.means R.System.means self.now.held.now.between.now.comparison.now) Left self.now.held.now.pair.now self.now.left_step self.now.right_step v) }
    {
        let range = self.held.between.comparison.left.range();
        (range.lo()..=range.hi()).all(|value| self.form_record(value))
    }
}

impl<L: System, R: System> Held<'_, '_, L, R> {
    /// Whether the receives with these numbers form records of the relation at every value; none where one of them is not
    /// held. They may form the record with the number `place` at some.
    pub(crate) fn form_records(
        &self,
        left_step: usize,
        right_step: usize,
        place: usize,
    ) -> Option<bool>
        ensures { IfSome result (λ b. Decides b ((v : ℤ) → in_range_of (meant L.System.means R.System.means self.now.between.now.comparison.now).left v ≡ true → LandsAt (meant L.System.means R.System.means self.now.between.now.comparison.now) Left self.now.pair.now left_step right_step v)) }
    {
        let received = Received {
            held: self,
            left_step,
            right_step,
            left: self.left.receive(left_step)?,
            right: self.right.receive(right_step)?,
            known: nth(self.between.comparison.relation, place),
        };
        Some(received.form_records())
    }
}
