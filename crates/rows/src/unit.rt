ghost use Rattle.std.specs.Prelude.{◌≡◌};
ghost use Rattle.rows.specs.Units.{reads, holds, enabled, receivable, filled, taken};

use crate::row::{Action, Guard, Operand, Register, Row};
use model::unit_state::UnitState;
use model::value::Value;

impl Operand {
    /// The value that the operand reads from a unit.
    pub fn value_in(self, unit: &UnitState) -> Value
        ensures { result ≡ reads unit.now self }
    {
        match self {
            Operand::First => unit.first,
            Operand::Second => unit.second,
            Operand::Constant(value) => value,
        }
    }
}

impl Guard {
    pub fn holds_for(self, unit: &UnitState) -> bool
        ensures { result ≡ holds unit.now self }
    {
        match self {
            Guard::None => true,
            Guard::Equal(x, y) => x.value_in(unit) == y.value_in(unit),
            Guard::Differs(x, y) => x.value_in(unit) != y.value_in(unit),
            Guard::Less(x, y) => x.value_in(unit) < y.value_in(unit),
        }
    }
}

impl Action {
    /// The unit once a receive has filled its register.
    fn filled(self, unit: &UnitState, value: Value) -> UnitState
        ensures { result ≡ filled unit.now self value }
    {
        match self {
            Action::Silent | Action::Broadcast(_) => *unit,
            Action::Receive(Register::First) => UnitState {
                first: value,
                ..*unit
            },
            Action::Receive(Register::Second) => UnitState {
                second: value,
                ..*unit
            },
        }
    }
}

impl Row {
    /// Whether the unit is at the row's location and the guard holds of its registers as they are.
    pub fn is_enabled(&self, unit: &UnitState) -> bool
        ensures { result ≡ enabled unit.now self.now }
    {
        unit.location == self.from && self.guard.holds_for(unit)
    }

    /// Whether the unit can take the row to receive a value.
    pub fn is_receivable(&self, unit: &UnitState) -> bool
        ensures { result ≡ receivable unit.now self.now }
    {
        match self.action {
            Action::Receive(_) => self.is_enabled(unit),
            Action::Silent | Action::Broadcast(_) => false,
        }
    }

    /// The unit after it has taken the row. Only a receive looks at the value.
    pub fn taken_by(&self, unit: &UnitState, value: Value) -> UnitState
        ensures { result ≡ taken unit.now self.now value }
    {
        let filled = self.action.filled(unit, value);
        UnitState {
            location: self.to,
            first: self.first.value_in(&filled),
            second: self.second.value_in(&filled),
            groups: filled.groups,
        }
    }
}
