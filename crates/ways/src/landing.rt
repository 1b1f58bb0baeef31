ghost use Rattle.std.specs.Prelude.{◌≡◌, ◌<◌};
ghost use Rattle.model.specs.GroupSets.{part};
ghost use Rattle.model.specs.Placements.{sets_of};
ghost use Rattle.ways.specs.Nets.{net_of};
ghost use Rattle.ways.specs.Ways.{all_stay};
ghost use Rattle.ways.specs.declared.way.Way.TheVariants.{Act};
ghost use Rattle.ways.specs.Landings.{act_label, label_of, landing_of, incoming, chosen, slot_after, acted, moved, placed};

use crate::slots::unit_at;
use crate::table::Table;
use crate::way::{Choice, Way};
use model::group_set::GroupSet;
use model::label::Label;
use model::placement::Placement;
use model::state::State;
use model::unit_state::{UNITS, UnitState};
use model::value::Value;
use rows::row::Action;

/// The value that comes in as the unit takes a row with this action.
pub(crate) fn incoming(unit: &UnitState, action: Action, value: Value) -> Value
    ensures { result ≡ incoming unit.now action value }
{
    match action {
        Action::Broadcast(operand) => operand.value_in(unit),
        Action::Silent => 0,
        Action::Receive(_) => value,
    }
}

/// The state after the unit has changed to the set.
pub fn moved(state: &State, unit: usize, set: GroupSet) -> State
    ensures { result ≡ moved state.now unit set }
{
    let mut moving = unit_at(state, unit);
    moving.groups = set;
    state.with(unit, moving)
}

impl Table {
    /// Where the units of a state are placed.
    pub fn placement(&self, state: &State) -> Placement
        ensures { sets_of result ≡ placed (net_of self.now) state.now }
    {
        Placement {
            units: self.units,
            slots: state.units.map(|unit| unit.groups),
        }
    }

    fn choose(&self, unit: &UnitState, choice: Choice, value: Value) -> UnitState
        ensures { result ≡ chosen (net_of self.now) unit.now choice value }
    {
        match choice {
            Choice::Stay => *unit,
            Choice::Take { row } => self.row(row).taken_by(unit, value),
        }
    }

    pub(crate) fn act_label(&self, unit: &UnitState, action: Action) -> Label
        ensures { result ≡ act_label (part self.now.free unit.now.groups) unit.now action }
    {
        let groups = unit.groups.part_within(self.free);
        match action {
            Action::Silent => Label::Silent,
            Action::Broadcast(operand) => {
                if groups.is_empty() {
                    Label::Silent
                } else {
                    Label::Broadcast {
                        groups,
                        value: operand.value_in(unit),
                    }
                }
            }
            Action::Receive(_) => Label::Receive { groups },
        }
    }

    /// What is seen of a way.
    pub fn label_of(&self, state: &State, way: &Way) -> Label
        ensures { result ≡ label_of (net_of self.now) state.now way.now }
    {
        match way {
            Way::Move { unit: _, set: _ } => Label::Movement,
            Way::Act {
                unit,
                row,
                choices: _,
            } => self.act_label(&unit_at(state, *unit), self.row(*row).action),
        }
    }

    fn slot_after(
        &self,
        state: &State,
        unit: usize,
        row: usize,
        choices: &[Choice; UNITS],
        value: Value,
        slot: usize,
    ) -> UnitState
        requires { slot < 6 }
        ensures { result ≡ slot_after (net_of self.now) state.now unit row choices.now value slot }
    {
        let choice = if slot == unit {
            Choice::Take { row }
        } else {
            choices[slot]
        };
        self.choose(&unit_at(state, slot), choice, value)
    }

    /// The state after the unit has taken the row, and the others have done as they chose.
    fn acted(
        &self,
        state: &State,
        unit: usize,
        row: usize,
        choices: &[Choice; UNITS],
        value: Value,
    ) -> State
        ensures { result ≡ acted (net_of self.now) state.now unit row choices.now value }
    {
        State {
            units: std::array::from_fn(|slot| {
                self.slot_after(state, unit, row, choices, value, slot)
            }),
        }
    }

    /// Where the unit lands the state as it takes the row for a value, and the others stay.
    pub(crate) fn taken_alone(&self, state: &State, unit: usize, row: usize, value: Value) -> State
        ensures { result ≡ landing_of (net_of self.now) state.now (Act unit row all_stay) value }
    {
        // Only a receive looks at the value.
        state.with(unit, self.row(row).taken_by(&unit_at(state, unit), value))
    }

    /// Where a way lands for a value.
    pub fn landing_of(&self, state: &State, way: &Way, value: Value) -> State
        ensures { result ≡ landing_of (net_of self.now) state.now way.now value }
    {
        match way {
            Way::Move { unit, set } => moved(state, *unit, *set),
            Way::Act { unit, row, choices } => {
                let value = incoming(&unit_at(state, *unit), self.row(*row).action, value);
                self.acted(state, *unit, *row, choices, value)
            }
        }
    }
}
