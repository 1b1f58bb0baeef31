ghost use Rattle.std.specs.Prelude.{◌≡◌, length, slice_set};

use crate::unit_state::{UNITS, UnitState};

/// A state record: six units. Which states are lawful is for a system to say.
#[derive(Clone, Copy, PartialEq, Eq, Default, Debug)]
pub struct State {
    pub units: [UnitState; UNITS],
}

/// A state of the left system beside one of the right.
#[derive(Clone, Copy, PartialEq, Eq, Default, Debug)]
pub struct Pair {
    pub left: State,
    pub right: State,
}

impl State {
    /// The state with another unit in the slot. Past the last slot it is the same state.
    pub fn with(&self, slot: usize, unit: UnitState) -> State
        ensures is { result.units ≡ slice_set self.now.units slot unit }
        ensures long { length self.now.units ≡ 6 }
    {
        let mut units = self.units;
        if slot < UNITS {
            units[slot] = unit;
        }
        State { units }
    }
}
