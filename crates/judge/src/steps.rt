ghost use Rattle.std.specs.Prelude.{◌≡◌, ℕ, [], length, OnOk, IfSome};
ghost use Rattle.lists.specs.Words.{Stands};
ghost use Rattle.systems.specs.Listing.{listing};
ghost use Rattle.judge.specs.Entering.{entered};
ghost use Rattle.judge.specs.Firsts.{Firsts};
ghost use Rattle.judge.specs.Receiving.{receiving_from, Tell};

use crate::buckets::Buckets;
use crate::firsts::{First, add_firsts};
use crate::index::States;
use crate::reply::is_receive;
use model::state::State;
use model::value::Value;
use std::alloc::{AllocError, Global};
use systems::System;
use systems::listed::Listed;

/// Room for as many steps, and receives among them, as a state often has; a longer list grows.
const USUAL_STEPS: usize = 32;

const USUAL_RECEIVES: usize = 8;

/// Room for the steps of a state, as they are listed at a value. The system tells each receive among them by a `W`.
#[derive(Drop)]
pub(crate) struct Steps<W> {
    pub(crate) listed: Vec<Listed>,
    /// The steps that repeat no earlier one, by the numbers of the states in which they land.
    pub(crate) firsts: Buckets<First>,
    /// The numbers of the receives, and what tells them, in one order.
    receiving: Vec<usize>,
    told_by: Vec<W>,
}

/// Adds the numbers of the receives.
fn add_receiving(listed: &[Listed], receiving: &mut Vec<usize>) -> Result<(), AllocError>
    requires { receiving.old.items ≡ [] }
    ensures { OnOk result (receiving.new.items ≡ receiving_from 0 listed.now) }
{
    for (number, step) in listed.iter().enumerate() {
        if is_receive(&step.label) {
            receiving.push(number)?;
        }
    }
    Ok(())
}

/// Lists the steps of the state at the value, in place of what was listed before.
pub(crate) fn list_steps<S: System>(
    steps: &mut Steps<S::Receive>,
    system: &S,
    state: &State,
    value: Value,
    states: &States,
) -> Result<(), AllocError>
    ensures listed { OnOk result (steps.new.listed.items ≡ listing (S.System.means system.now) state.now value) }
    ensures told { OnOk result (Tell ((S.System.means system.now).steps state.now) (S.System.receive_by system.now state.now) steps.new.receiving.items steps.new.told_by.items) }
    ensures firsts { OnOk result (Firsts steps.new.listed.items (length steps.new.listed.items) (entered steps.new.firsts)) }
{
    steps.clear();
    system.list(state, value, &mut steps.listed)?;
    add_firsts(&steps.listed, states, &mut steps.firsts)?;
    add_receiving(&steps.listed, &mut steps.receiving)?;
    if steps.receiving.is_empty() {
        return Ok(());
    }
    system.receives(state, &mut steps.told_by)
}

impl<W: Drop> Steps<W> {
    /// Room for steps that land in a relation of so many records.
    pub(crate) fn with_room(heap: Global, records: usize) -> Result<Steps<W>, AllocError> {
        Ok(Steps {
            listed: Vec::with_capacity(heap, USUAL_STEPS)?,
            firsts: Buckets::with_room(heap, records, USUAL_STEPS)?,
            receiving: Vec::with_capacity(heap, USUAL_RECEIVES)?,
            told_by: Vec::with_capacity(heap, USUAL_RECEIVES)?,
        })
    }

    fn clear(&mut self)
        ensures listed { self.new.listed.items ≡ [] }
        ensures firsts { entered self.new.firsts ≡ [] }
        ensures receiving { self.new.receiving.items ≡ [] }
        ensures told { self.new.told_by.items ≡ [] }
    {
        self.listed.clear();
        self.firsts.clear();
        self.receiving.clear();
        self.told_by.clear();
    }

    /// What the system tells the receive with that number by.
    pub(crate) fn receive(&self, number: usize) -> Option<&W>
        ensures { IfSome result (λ w. (k : ℕ) × Stands self.now.receiving.items number k × Stands self.now.told_by.items w.now k) }
    {
        let place = self.receiving.binary_search(&number).ok()?;
        self.told_by.get(place)
    }
}
