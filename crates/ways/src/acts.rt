ghost use Rattle.std.specs.Prelude.{◌≡◌, ◌*◌, ◌^◌, ◌<◌, ◌≤◌, length, Some};
ghost use Rattle.std.specs.List.{slice_get};
ghost use Rattle.ways.specs.Nets.{net_of};
ghost use Rattle.ways.specs.Ways.{combinations, acts_by, acts_of, acts};

use crate::slots::unit_at;
use crate::table::Table;
use crate::way::{Choice, Way};
use lists::blocks::locate;
use model::state::State;
use model::unit_state::UNITS;
use rows::row::Action;

// The state is the argument of each call of a system: a struct of table and state would be made anew at each.
impl Table {
    /// How many combinations of choices go with a row of this action.
    pub(crate) fn action_count(&self, state: &State, unit: usize, action: Action) -> usize
        ensures is { result ≡ length (combinations (net_of self.now) state.now unit action) }
        ensures few { result ≤ 65 ^ 6 }
    {
        match action {
            Action::Silent => 1,
            Action::Broadcast(_) => self.combination_count(state, unit),
            Action::Receive(_) => {
                let heard = unit_at(state, unit).groups.part_within(self.free);
                usize::from(!heard.is_empty())
            }
        }
    }

    fn action_choices(
        &self,
        state: &State,
        unit: usize,
        action: Action,
        number: usize,
    ) -> [Choice; UNITS]
        requires { number < length (combinations (net_of self.now) state.now unit action) }
        ensures { slice_get (combinations (net_of self.now) state.now unit action) number ≡ Some result }
    {
        match action {
            Action::Broadcast(_) => self.combination(state, unit, number),
            Action::Silent | Action::Receive(_) => [Choice::Stay; UNITS],
        }
    }

    /// In how many ways the unit takes the row.
    pub(crate) fn count_by(&self, state: &State, unit: usize, row: usize) -> usize
        ensures is { result ≡ length (acts_by (net_of self.now) state.now unit row) }
        ensures few { result ≤ 65 ^ 6 }
    {
        let taken = self.row(row);
        if taken.is_enabled(&unit_at(state, unit)) {
            self.action_count(state, unit, taken.action)
        } else {
            0
        }
    }

    pub(crate) fn act_by(&self, state: &State, unit: usize, row: usize, number: usize) -> Way
        requires { number < length (acts_by (net_of self.now) state.now unit row) }
        ensures { slice_get (acts_by (net_of self.now) state.now unit row) number ≡ Some result }
    {
        let choices = self.action_choices(state, unit, self.row(row).action, number);
        Way::Act { unit, row, choices }
    }

    fn count_of(&self, state: &State, unit: usize) -> usize
        ensures is { result ≡ length (acts_of (net_of self.now) state.now unit) }
        ensures few { result ≤ 64 * 65 ^ 6 }
    {
        (0..self.program.rows().len())
            .map(|row| self.count_by(state, unit, row))
            .sum()
    }

    fn act_of(&self, state: &State, unit: usize, number: usize) -> Option<Way>
        ensures { result ≡ slice_get (acts_of (net_of self.now) state.now unit) number }
    {
        let rows = self.program.rows().len();
        let (row, left) = locate(rows, |row| self.count_by(state, unit, row), number)?;
        Some(self.act_by(state, unit, row, left))
    }

    /// In how many ways units take rows.
    pub fn act_count(&self, state: &State) -> usize
        ensures is { result ≡ length (acts (net_of self.now) state.now) }
        ensures few { result ≤ 6 * (64 * 65 ^ 6) }
    {
        (0..self.units).map(|unit| self.count_of(state, unit)).sum()
    }

    /// The way with this number among those in which units take rows.
    pub fn act(&self, state: &State, number: usize) -> Option<Way>
        ensures { result ≡ slice_get (acts (net_of self.now) state.now) number }
    {
        let (unit, left) = locate(self.units, |unit| self.count_of(state, unit), number)?;
        self.act_of(state, unit, left)
    }
}
