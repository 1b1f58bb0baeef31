ghost use Rattle.std.specs.Prelude.{◌≡◌, ◌++◌, true, map, OnOk, OnErr};
ghost use Rattle.lists.specs.Words.{Extends};
ghost use Rattle.rows.specs.Units.{enabled};
ghost use Rattle.ways.specs.Nets.{net_of, unit_at, row_at};
ghost use Rattle.ways.specs.Ways.{acts_by, acts_of, acts};
ghost use Rattle.ways.specs.Landings.{listed_of};
ghost use Rattle.ways.specs.declared.way.Way.TheVariants.{Move};

use crate::landing::moved;
use crate::slots::unit_at;
use crate::table::Table;
use model::group_set::GroupSet;
use model::label::Label;
use model::state::State;
use model::value::Value;
use rows::row::Action;
use std::alloc::AllocError;
use systems::listed::{Listed, add_listed};

// Loops, since to add may want memory; a number is itself what is asked for.
impl Table {
    // Most rows are not enabled, so that is asked before, of a unit that is read once for all of them.
    fn add_acts_by(
        &self,
        state: &State,
        unit: usize,
        row: usize,
        value: Value,
        steps: &mut Vec<Listed>,
    ) -> Result<(), AllocError>
        requires { enabled (unit_at state.now unit) (row_at (net_of self.now) row) ≡ true }
        ensures adds { OnOk result (steps.new.items ≡ steps.old.items ++ map (listed_of (net_of self.now) state.now value) (acts_by (net_of self.now) state.now unit row)) }
        ensures begins { OnErr result (Extends steps.old.items steps.new.items) }
    {
        let taken = self.row(row);
        if let Action::Broadcast(_) = taken.action {
            return self.add_combinations(state, unit, row, value, steps);
        }
        if self.action_count(state, unit, taken.action) > 0 {
            add_listed(steps, self.listed_alone(state, unit, row, value))?;
        }
        Ok(())
    }

    fn add_acts_of(
        &self,
        state: &State,
        unit: usize,
        value: Value,
        steps: &mut Vec<Listed>,
    ) -> Result<(), AllocError>
        ensures adds { OnOk result (steps.new.items ≡ steps.old.items ++ map (listed_of (net_of self.now) state.now value) (acts_of (net_of self.now) state.now unit)) }
        ensures begins { OnErr result (Extends steps.old.items steps.new.items) }
    {
        let by = unit_at(state, unit);
        for row in 0..self.program.rows().len() {
            if self.row(row).is_enabled(&by) {
                self.add_acts_by(state, unit, row, value, steps)?;
            }
        }
        Ok(())
    }

    /// The step in which the unit changes to the set, as it is listed at the value.
    pub fn listed_movement(&self, state: &State, unit: usize, set: GroupSet, value: Value) -> Listed
        ensures { result ≡ listed_of (net_of self.now) state.now value (Move unit set) }
    {
        let is_in_range = self.program.range().holds(value);
        Listed {
            label: Label::Movement,
            landing: is_in_range.then(|| moved(state, unit, set)),
        }
    }

    fn add_acts_in_turn(
        &self,
        state: &State,
        value: Value,
        steps: &mut Vec<Listed>,
    ) -> Result<(), AllocError>
        ensures adds { OnOk result (steps.new.items ≡ steps.old.items ++ map (listed_of (net_of self.now) state.now value) (acts (net_of self.now) state.now)) }
        ensures begins { OnErr result (Extends steps.old.items steps.new.items) }
    {
        for unit in 0..self.units {
            self.add_acts_of(state, unit, value, steps)?;
        }
        Ok(())
    }

    /// Adds the steps in which units take rows, as they are listed at the value. Where memory is wanting, the list is as it
    /// was.
    pub fn add_acts(
        &self,
        state: &State,
        value: Value,
        steps: &mut Vec<Listed>,
    ) -> Result<(), AllocError>
        ensures adds { OnOk result (steps.new.items ≡ steps.old.items ++ map (listed_of (net_of self.now) state.now value) (acts (net_of self.now) state.now)) }
        ensures leaves { OnErr result (steps.new.items ≡ steps.old.items) }
    {
        let before = steps.len();
        let added = self.add_acts_in_turn(state, value, steps);
        if added.is_err() {
            steps.truncate(before);
        }
        added
    }
}
