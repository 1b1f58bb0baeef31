ghost use Rattle.std.specs.Prelude.{◌≡◌, ℕ, Decides};
ghost use Rattle.sheet.specs.Meaning.{sheet_meaning, step_of};
ghost use Rattle.sheet.specs.States.{state_at};
ghost use Rattle.sheet.specs.Stepping;

use crate::row::Row;
use crate::sheet::Sheet;
use crate::states::is_lawful;
use model::group_set::GroupSet;
use model::label::Label;
use model::range::Range;
use model::state::State;
use model::value::Value;
use std::alloc::AllocError;
use systems::System;
use systems::listed::Listed;

impl System for Sheet {
    type Receive = Row;

    ghost means = { sheet_meaning };

    ghost receive_by = { λ t s r. step_of r };

    ghost keeps = { λ t. Stepping.keeps t };

    fn range(&self) -> Range {
        self.range
    }

    /// A lawful state has any first byte, and then zeros.
    fn is_lawful(&self, state: &State) -> bool
        ensures is { result ≡ (sheet_meaning self.now).lawful state.now }
        ensures numbered { Decides result ((n : ℕ) × (state.now ≡ state_at n)) }
    {
        is_lawful(state)
    }

    fn shown(&self, state: &State) -> GroupSet {
        if is_lawful(state) {
            self.channels
        } else {
            GroupSet::default()
        }
    }

    fn step_count(&self, state: &State) -> u64 {
        if is_lawful(state) {
            self.count(state)
        } else {
            0
        }
    }

    fn label(&self, state: &State, step: u64) -> Option<Label> {
        Some(self.row(state, step)?.label())
    }

    fn landing(&self, state: &State, step: u64, value: Value) -> Option<State> {
        if !self.range.holds(value) {
            return None;
        }
        Some(self.row(state, step)?.landing(value))
    }

    fn list(&self, state: &State, value: Value, steps: &mut Vec<Listed>) -> Result<(), AllocError> {
        if is_lawful(state) {
            self.add_rows(state, value, steps)
        } else {
            Ok(())
        }
    }

    fn receives(&self, state: &State, receives: &mut Vec<Row>) -> Result<(), AllocError> {
        if is_lawful(state) {
            self.add_receiving(state, receives)
        } else {
            Ok(())
        }
    }

    fn landing_by(&self, _state: &State, receive: &Row, value: Value) -> Option<State> {
        let is_in_range = self.range.holds(value);
        is_in_range.then(|| receive.landing(value))
    }
}
