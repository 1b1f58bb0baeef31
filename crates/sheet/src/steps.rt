ghost use Rattle.std.specs.Prelude.{◌≡◌, ◌++◌, map, length, filter, OnOk, OnErr};
ghost use Rattle.systems.specs.Meaning.{receives};
ghost use Rattle.std.specs.List.{slice_get};
ghost use Rattle.lists.specs.Words.{Extends};
ghost use Rattle.sheet.specs.States.{number_of};
ghost use Rattle.sheet.specs.Meaning.{target, step_of, rows_from, ways_of, listed_row};

use crate::row::{Kind, Row};
use crate::sheet::Sheet;
use crate::states::{is_lawful, number_of, state_at};
use model::label::Label;
use model::range::Range;
use model::state::State;
use model::value::Value;
use std::alloc::AllocError;
use systems::listed::{Listed, add_listed};

impl Row {
    pub(crate) fn label(&self) -> Label
        ensures { result ≡ (step_of self.now).label }
    {
        match self.kind {
            Kind::Silent => Label::Silent,
            Kind::Movement => Label::Movement,
            Kind::Broadcast { groups, value } => Label::Broadcast { groups, value },
            Kind::Receive { groups, .. } => Label::Receive { groups },
        }
    }

    fn is_receive(&self) -> bool
        ensures { result ≡ receives (step_of self.now).label }
    {
        matches!(self.kind, Kind::Receive { .. })
    }

    /// The number of the state in which the row lands for a value.
    fn target(&self, value: Value) -> u8
        ensures { result ≡ target self.now.kind self.now.to value }
    {
        match self.kind {
            Kind::Receive {
                value: own,
                other,
                ..
            } if value != own => other,
            _ => self.to,
        }
    }

    pub(crate) fn landing(&self, value: Value) -> State
        ensures { result ≡ (step_of self.now).landing value }
    {
        state_at(self.target(value))
    }

    /// The row as it is listed in a sheet of the range.
    fn listed(&self, range: &Range, value: Value) -> Listed
        ensures { result ≡ listed_row range.now.lo range.now.hi value self.now }
    {
        Listed {
            label: self.label(),
            landing: range.holds(value).then(|| self.landing(value)),
        }
    }
}

/// How many of the rows start from the state with the number.
// The filter stands here and below, since no function can hand out an iterator that it does not name.
fn count_from(rows: &[Row], number: u8) -> u64
    ensures { result ≡ length (rows_from number rows.now) }
{
    // a step number is a u64 in the trait System, and std counts in usize
    rows.iter().filter(|row| row.from == number).count() as u64
}

/// The row with the number `step` among those from the state with the number.
fn row_from(rows: &[Row], number: u8, step: u64) -> Option<Row>
    ensures { result ≡ slice_get (rows_from number rows.now) step }
{
    // nth takes a usize, which has the 64 bits of a step number
    rows.iter()
        .filter(|row| row.from == number)
        .nth(step as usize)
        .copied()
}

/// Adds the rows to receive from the state with the number.
fn add_receiving_from(rows: &[Row], number: u8, found: &mut Vec<Row>) -> Result<(), AllocError>
    ensures adds { OnOk result (found.new.items ≡ found.old.items ++ filter (λ r. receives (step_of r).label) (rows_from number rows.now)) }
    ensures begins { Extends found.old.items found.new.items }
{
    for row in rows {
        if row.from == number && row.is_receive() {
            found.push(*row)?;
        }
    }
    Ok(())
}

/// Adds the rows from the state with the number, as a sheet of the range lists them at the value.
fn add_listed_from(
    rows: &[Row],
    number: u8,
    range: &Range,
    value: Value,
    steps: &mut Vec<Listed>,
) -> Result<(), AllocError>
    ensures adds { OnOk result (steps.new.items ≡ steps.old.items ++ map (listed_row range.now.lo range.now.hi value) (rows_from number rows.now)) }
    ensures begins { Extends steps.old.items steps.new.items }
{
    for row in rows {
        if row.from == number {
            add_listed(steps, row.listed(range, value))?;
        }
    }
    Ok(())
}

impl Sheet {
    /// How many steps a lawful state has.
    pub(crate) fn count(&self, state: &State) -> u64
        ensures { result ≡ length (rows_from (number_of state.now) self.now.rows.items) }
    {
        count_from(self.rows.as_slice(), number_of(state))
    }

    /// The row that is the step `step` of a state, or none where the state has no such step.
    pub(crate) fn row(&self, state: &State, step: u64) -> Option<Row>
        ensures { result ≡ slice_get (ways_of self.now.rows.items state.now) step }
    {
        // no `then`: it would give an Option of an Option, to be flattened
        if is_lawful(state) {
            row_from(self.rows.as_slice(), number_of(state), step)
        } else {
            None
        }
    }

    /// Adds the rows to receive from a lawful state. Where memory is wanting, the list stays as it was.
    pub(crate) fn add_receiving(
        &self,
        state: &State,
        found: &mut Vec<Row>,
    ) -> Result<(), AllocError>
        ensures adds { OnOk result (found.new.items ≡ found.old.items ++ filter (λ r. receives (step_of r).label) (rows_from (number_of state.now) self.now.rows.items)) }
        ensures keeps { Extends found.old.items found.new.items }
        ensures leaves { OnErr result (found.new.items ≡ found.old.items) }
    {
        let length = found.len();
        let added = add_receiving_from(self.rows.as_slice(), number_of(state), found);
        if added.is_err() {
            found.truncate(length);
        }
        added
    }

    /// Adds the steps of a lawful state, listed at the value. Where memory is wanting, the list stays as it was.
    pub(crate) fn add_rows(
        &self,
        state: &State,
        value: Value,
        steps: &mut Vec<Listed>,
    ) -> Result<(), AllocError>
        ensures adds { OnOk result (steps.new.items ≡ steps.old.items ++ map (listed_row self.now.range.lo self.now.range.hi value) (rows_from (number_of state.now) self.now.rows.items)) }
        ensures leaves { OnErr result (steps.new.items ≡ steps.old.items) }
    {
        let length = steps.len();
        let rows = self.rows.as_slice();
        let added = add_listed_from(rows, number_of(state), &self.range, value, steps);
        if added.is_err() {
            steps.truncate(length);
        }
        added
    }
}
