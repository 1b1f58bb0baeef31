#![tactic(auto)]

ghost use Rattle.std.specs.Prelude.{◌≡◌, ◌++◌, map, length, OnOk, OnErr};
ghost use Rattle.systems.specs.Meaning.{Meaning, Step, Keeps, in_range_of, label_at, landing_at};
ghost use Rattle.systems.specs.Listing.{listing, receives_in};
ghost use Rattle.lists.specs.Words.{given, Extends};
ghost use Rattle.model.specs.declared.state.State.{State};

use crate::listed::{Listed, MOST_LISTED, add_listed};
use model::group_set::GroupSet;
use model::label::Label;
use model::range::Range;
use model::state::State;
use model::value::Value;
use std::alloc::AllocError;

pub mod listed;

/// A system, known by what it means: a range, which states are lawful, the channel set that each lawful state shows, and
/// the list of steps of each state, with a label and a landing for each value in range. Asking changes nothing.
pub trait System {
    /// What a receive of a state is told by.
    type Receive: Copy;

    ghost means: { Self → Meaning };

    // the step that a receive stands for, by what it is told by
    ghost receive_by: { Self → State → Self.Receive → Step };

    fn range(&self) -> Range
        ensures lo { result.lo ≡ (means self.now).lo }
        ensures hi { result.hi ≡ (means self.now).hi };

    fn is_lawful(&self, state: &State) -> bool
        ensures { result ≡ (means self.now).lawful state.now };

    /// The channel set that the state shows; the empty set where it is not lawful.
    fn shown(&self, state: &State) -> GroupSet
        ensures { result ≡ (means self.now).shown state.now };

    /// How many steps the state has; none where it is not lawful.
    fn step_count(&self, state: &State) -> u64
        ensures { result ≡ length ((means self.now).steps state.now) };

    /// The label of a step, or none where the list has no such step.
    fn label(&self, state: &State, step: u64) -> Option<Label>
        ensures { result ≡ label_at (means self.now) state.now step };

    /// Where a step lands at a value, or none where the list has no such step or the value is out of range.
    fn landing(&self, state: &State, step: u64, value: Value) -> Option<State>
        ensures { result ≡ landing_at (means self.now) state.now step value };

    /// Adds all steps of the state in one pass, each with its label and its landing at the value. A list that would get longer
    /// than `MOST_LISTED` counts as want of memory. Where memory is wanting, the list stays as it was.
    fn list(&self, state: &State, value: Value, steps: &mut Vec<Listed>) -> Result<(), AllocError>
        ensures adds { OnOk result (steps.new.items ≡ steps.old.items ++ listing (means self.now) state.now value) }
        ensures leaves { OnErr result (steps.new.items ≡ steps.old.items) }
    {
        // All room is made at once, so that no step is added where there is none for the last.
        let count = self.step_count(state);
        if count > MOST_LISTED.saturating_sub(steps.len()) as u64 {
            return Err(AllocError);
        }
        steps.reserve(count as usize)?;
        for step in 0..count {
            if let Some(label) = self.label(state, step) {
                let landing = self.landing(state, step, value);
                add_listed(steps, Listed { label, landing })?;
            }
        }
        Ok(())
    }

    /// Adds the receives among the steps of the state, in their order, behind what the list holds. Where memory is wanting, the
    /// list stays as it was.
    fn receives(&self, state: &State, receives: &mut Vec<Self::Receive>) -> Result<(), AllocError>
        ensures adds { OnOk result (map (receive_by self.now state.now) receives.new.items ≡ map (receive_by self.now state.now) receives.old.items ++ receives_in ((means self.now).steps state.now)) }
        ensures keeps { Extends receives.old.items receives.new.items }
        ensures leaves { OnErr result (receives.new.items ≡ receives.old.items) };

    /// Where a receive lands at a value, or none where the value is out of range.
    fn landing_by(&self, state: &State, receive: &Self::Receive, value: Value) -> Option<State>
        ensures { result ≡ given (in_range_of (means self.now) value) ((receive_by self.now state.now receive.now).landing value) };

    ghost keeps: { (x : Self) → Keeps (means x) };
}
