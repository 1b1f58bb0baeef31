ghost use Rattle.std.specs.Prelude.{◌≡◌, ◌++◌, map, OnOk, OnErr};
ghost use Rattle.lists.specs.Words.{given, Extends};
ghost use Rattle.model.specs.Ranges.{in_range};
ghost use Rattle.systems.specs.Listing.{receives_in};
ghost use Rattle.ways.specs.Nets.{net_of};
ghost use Rattle.ways.specs.Ways.{acts};
ghost use Rattle.ways.specs.Landings.{step_of};
ghost use Rattle.ways.specs.Receivings.{received_by, receivings_of, receivings};

use crate::slots::unit_at;
use crate::table::Table;
use model::state::State;
use model::value::Value;
use std::alloc::AllocError;

/// A receive from outside: the unit takes the row, and the others stay.
#[derive(Clone, Copy)]
pub struct Receiving {
    pub unit: usize,
    pub row: usize,
}

// Loops, since each push may want memory; a number is itself what is asked for.
impl Table {
    fn add_receivings_of(
        &self,
        state: &State,
        unit: usize,
        found: &mut Vec<Receiving>,
    ) -> Result<(), AllocError>
        ensures adds { OnOk result (found.new.items ≡ found.old.items ++ receivings_of (net_of self.now) state.now unit) }
        ensures begins { OnErr result (Extends found.old.items found.new.items) }
    {
        let by = unit_at(state, unit);
        let heard = by.groups.part_within(self.free);
        if heard.is_empty() {
            return Ok(());
        }
        for row in 0..self.program.rows().len() {
            if self.row(row).is_receivable(&by) {
                found.push(Receiving { unit, row })?;
            }
        }
        Ok(())
    }

    fn add_receivings_in_turn(
        &self,
        state: &State,
        found: &mut Vec<Receiving>,
    ) -> Result<(), AllocError>
        ensures adds { OnOk result (found.new.items ≡ found.old.items ++ receivings (net_of self.now) state.now) }
        ensures begins { OnErr result (Extends found.old.items found.new.items) }
    {
        for unit in 0..self.units {
            self.add_receivings_of(state, unit, found)?;
        }
        Ok(())
    }

    /// Adds the receives among the steps in which units take rows, in their order. Where memory is wanting, the list is as it
    /// was.
    pub fn add_receivings(
        &self,
        state: &State,
        found: &mut Vec<Receiving>,
    ) -> Result<(), AllocError>
        ensures adds { OnOk result (found.new.items ≡ found.old.items ++ receivings (net_of self.now) state.now) }
        ensures leaves { OnErr result (found.new.items ≡ found.old.items) }
        ensures told { OnOk result (map (received_by (net_of self.now) state.now) found.new.items ≡ map (received_by (net_of self.now) state.now) found.old.items ++ receives_in (map (step_of (net_of self.now) state.now) (acts (net_of self.now) state.now))) }
    {
        let before = found.len();
        let added = self.add_receivings_in_turn(state, found);
        if added.is_err() {
            found.truncate(before);
        }
        added
    }

    /// Where a receive lands for a value, or none where the value is out of range.
    pub fn received(&self, state: &State, receiving: &Receiving, value: Value) -> Option<State>
        ensures { result ≡ given (in_range self.now.program.range.lo self.now.program.range.hi value) ((received_by (net_of self.now) state.now receiving.now).landing value) }
    {
        let is_in_range = self.program.range().holds(value);
        is_in_range.then(|| self.taken_alone(state, receiving.unit, receiving.row, value))
    }
}
