ghost use Rattle.std.specs.Prelude.{◌≡◌, true, Decides};
ghost use Rattle.judge.specs.Comparing.{state_on};
ghost use Rattle.judge.specs.Likeness.{Holds};

use crate::buckets::Buckets;
use crate::fingerprints::{pair_fingerprint, state_fingerprint};
use crate::held::nth;
use lookup::first_equal;
use model::state::{Pair, State};
use questions::Side;
use std::alloc::{AllocError, Global};

/// A number under a fingerprint.
#[derive(Clone, Copy)]
struct Fingerprinted {
    fingerprint: u64,
    number: usize,
}

/// The states that the records hold on one side. The number of a state is the place of the first record that holds it.
// States of one fingerprint have one number, so a number is a hint: what is found by it is compared before it counts.
#[derive(Drop)]
pub(crate) struct States {
    numbers: Buckets<Fingerprinted>,
    /// The places of the records, by the numbers of their states.
    pub(crate) records: Buckets<usize>,
}

/// The records of a relation by the states that they hold on either side, and by both.
#[derive(Drop)]
pub(crate) struct Index {
    left: States,
    right: States,
    pairs: Buckets<Fingerprinted>,
}

impl States {
    fn with_room(heap: Global, count: usize) -> Result<States, AllocError> {
        Ok(States {
            numbers: Buckets::with_room(heap, count.saturating_mul(2), count)?,
            records: Buckets::with_room(heap, count, count)?,
        })
    }

    fn number(&self, fingerprint: u64) -> Option<usize> {
        let bucket = self.numbers.bucket(fingerprint);
        self.numbers.find(bucket, |state| {
            (state.fingerprint == fingerprint).then_some(state.number)
        })
    }

    /// The number of a state; none where no record holds it.
    pub(crate) fn number_of(&self, state: &State) -> Option<usize> {
        self.number(state_fingerprint(state))
    }

    /// The number of the state that the record holds.
    pub(crate) fn number_at(&self, place: usize) -> Option<usize> {
        Some(self.records.entries().get(place)?.bucket)
    }

    /// Enters the next record.
    fn enter(&mut self, place: usize, fingerprint: u64) -> Result<(), AllocError> {
        let number = match self.number(fingerprint) {
            Some(number) => number,
            None => {
                let bucket = self.numbers.bucket(fingerprint);
                let number = place;
                self.numbers.enter(
                    bucket,
                    Fingerprinted {
                        fingerprint,
                        number,
                    },
                )?;
                number
            }
        };
        self.records.enter(number, place)
    }
}

/// The pair's state on that side.
pub(crate) fn state_on(side: Side, pair: &Pair) -> &State
    ensures { result.now ≡ state_on side pair.now }
{
    match side {
        Side::Left => &pair.left,
        Side::Right => &pair.right,
    }
}

/// Whether the states are equal.
// By their bytes, which are compared at once; `==` goes from field to field.
pub(crate) fn is_state(one: &State, other: &State) -> bool
    ensures { Decides result (one.now ≡ other.now) }
{
    one.to_bytes() == other.to_bytes()
}

pub(crate) fn is_pair(one: &Pair, other: &Pair) -> bool
    ensures { Decides result (one.now ≡ other.now) }
{
    is_state(&one.left, &other.left) && is_state(&one.right, &other.right)
}

fn is_record(relation: &[Pair], number: usize, pair: &Pair) -> bool
    ensures { result ≡ true → Holds relation.now pair.now }
{
    match nth(relation, number) {
        Some(held) => is_pair(held, pair),
        None => false,
    }
}

impl Index {
    pub(crate) fn make(heap: Global, relation: &[Pair]) -> Result<Index, AllocError> {
        let count = relation.len();
        let mut index = Index {
            left: States::with_room(heap, count)?,
            right: States::with_room(heap, count)?,
            pairs: Buckets::with_room(heap, count.saturating_mul(2), count)?,
        };
        for (place, pair) in relation.iter().enumerate() {
            index.enter(place, pair)?;
        }
        Ok(index)
    }

    /// Enters the next record.
    fn enter(&mut self, place: usize, pair: &Pair) -> Result<(), AllocError> {
        let left = state_fingerprint(&pair.left);
        let right = state_fingerprint(&pair.right);
        self.left.enter(place, left)?;
        self.right.enter(place, right)?;
        let fingerprint = pair_fingerprint(left, right);
        self.pairs.enter(
            self.pairs.bucket(fingerprint),
            Fingerprinted {
                fingerprint,
                number: place,
            },
        )
    }

    /// The states on that side.
    pub(crate) fn on(&self, side: Side) -> &States {
        match side {
            Side::Left => &self.left,
            Side::Right => &self.right,
        }
    }

    /// Whether the record is found. What is found is there, but one may be overlooked.
    fn finds(&self, relation: &[Pair], pair: &Pair) -> bool
        ensures { result ≡ true → Holds relation.now pair.now }
    {
        let wanted = pair_fingerprint(
            state_fingerprint(&pair.left),
            state_fingerprint(&pair.right),
        );
        self.pairs
            .find(self.pairs.bucket(wanted), |record| {
                let number = record.number;
                (record.fingerprint == wanted && is_record(relation, number, pair)).then_some(
                    number,
                )
            })
            .is_some()
    }

    /// Whether the relation, of which this is the index, has the record.
    pub(crate) fn holds(&self, relation: &[Pair], pair: &Pair) -> bool
        ensures { Decides result (Holds relation.now pair.now) }
    {
        self.finds(relation, pair) || first_equal(relation, pair).is_some()
    }
}
