ghost use Rattle.std.specs.Prelude.{◌≡◌};
ghost use Rattle.ways.specs.Nets.{net_of, unit_at, row_at};

use crate::table::Table;
use model::state::State;
use model::unit_state::UnitState;
use rows::row::{Action, Guard, Operand, Row};

/// What stands past the last row.
const IDLE: Row = Row {
    from: 0,
    guard: Guard::None,
    action: Action::Silent,
    to: 0,
    first: Operand::First,
    second: Operand::Second,
};

/// The unit in a slot; past the slots there are zero bytes.
pub fn unit_at(state: &State, slot: usize) -> UnitState
    ensures { result ≡ unit_at state.now slot }
{
    state.units.get(slot).copied().unwrap_or_default()
}

impl Table {
    /// The row with a number; past the last row there is one that nothing looks at.
    pub(crate) fn row(&self, number: usize) -> &Row
        ensures { result.now ≡ row_at (net_of self.now) number }
    {
        self.program.rows().get(number).unwrap_or(&IDLE)
    }
}
