ghost use Rattle.std.specs.Prelude.{◌≡◌, ◌<◌, ◌≤◌, map, length, slice_index_or};
ghost use Rattle.std.specs.List.{slice_get};
ghost use Rattle.ways.specs.Nets.{net_of};
ghost use Rattle.ways.specs.Ways.{receivable_at, receivable_rows, listener, choices};
ghost use Rattle.ways.specs.declared.way.Choice.TheVariants.{Stay, Take};

use crate::slots::unit_at;
use crate::table::Table;
use crate::way::Choice;
use model::state::State;

impl Table {
    /// Whether the unit can take the row to receive.
    pub(crate) fn is_receivable(&self, state: &State, unit: usize, row: usize) -> bool
        ensures { result ≡ receivable_at (net_of self.now) state.now unit row }
    {
        self.row(row).is_receivable(&unit_at(state, unit))
    }

    // The filter stands here and below, since no function can hand out an iterator that it does not name.
    fn receivable_count(&self, state: &State, unit: usize) -> usize
        ensures is { result ≡ length (receivable_rows (net_of self.now) state.now unit) }
        ensures few { result ≤ 64 }
    {
        (0..self.program.rows().len())
            .filter(|&row| self.is_receivable(state, unit, row))
            .count()
    }

    /// The choice to take the receivable row with this number among the unit's receivable rows.
    fn receiving(&self, state: &State, unit: usize, number: usize) -> Option<Choice>
        ensures { result ≡ slice_get (map Take (receivable_rows (net_of self.now) state.now unit)) number }
    {
        (0..self.program.rows().len())
            .filter(|&row| self.is_receivable(state, unit, row))
            .map(|row| Choice::Take { row })
            .nth(number)
    }

    /// Whether `unit` is another unit than the sender, and linked to it.
    pub(crate) fn is_listener(&self, state: &State, sender: usize, unit: usize) -> bool
        ensures { result ≡ listener (net_of self.now) state.now sender unit }
    {
        unit < self.units
            && unit != sender
            && unit_at(state, sender)
                .groups
                .is_linked(unit_at(state, unit).groups)
    }

    /// How many choices a unit has while the sender broadcasts.
    pub(crate) fn choice_count(&self, state: &State, sender: usize, unit: usize) -> usize
        ensures is { result ≡ length (choices (net_of self.now) state.now sender unit) }
        ensures some { 1 ≤ result }
        ensures few { result ≤ 65 }
    {
        if self.is_listener(state, sender, unit) {
            1 + self.receivable_count(state, unit)
        } else {
            1
        }
    }

    /// The choice with this number; past the last one it is to stay.
    pub(crate) fn choice(&self, state: &State, sender: usize, unit: usize, number: usize) -> Choice
        ensures { result ≡ slice_index_or (choices (net_of self.now) state.now sender unit) number Stay }
    {
        if number == 0 || !self.is_listener(state, sender, unit) {
            return Choice::Stay;
        }
        self.receiving(state, unit, number - 1)
            .unwrap_or(Choice::Stay)
    }
}
