ghost use Rattle.std.specs.Prelude.{◌≡◌};
ghost use Rattle.worked.specs.Entries.{unit, one, two, pair};
ghost use Rattle.worked.specs.Examples.{zero, s0, s1, with_byte};

use model::group_set::GroupSet;
use model::state::{Pair, State};
use model::unit_state::UnitState;
use model::value::Value;

/// A unit by its location, its first register and the number of its set. Its second register is 0.
pub(crate) fn unit(location: u8, first: Value, set: u8) -> UnitState
    ensures { result ≡ unit location first zero set }
{
    UnitState {
        location,
        first,
        second: 0,
        groups: GroupSet { bits: set },
    }
}

pub(crate) fn one(only: UnitState) -> State
    ensures { result ≡ one only }
{
    let none = UnitState::default();
    State {
        units: [only, none, none, none, none, none],
    }
}

pub(crate) fn two(one: UnitState, other: UnitState) -> State
    ensures { result ≡ two one other }
{
    let none = UnitState::default();
    State {
        units: [one, other, none, none, none, none],
    }
}

/// A unit that is to send.
pub(crate) fn s0() -> State
    ensures { result ≡ s0 }
{
    one(unit(0, 0, 1))
}

/// A unit that has sent.
pub(crate) fn s1() -> State
    ensures { result ≡ s1 }
{
    one(unit(1, 0, 1))
}

/// The unit whose first register has this byte.
pub(crate) fn with_byte(byte: u8) -> State
    ensures { result ≡ with_byte byte }
{
    one(UnitState::from_bytes([0, byte, 0, 1]))
}

pub(crate) fn pair(left: State, right: State) -> Pair
    ensures { result ≡ pair left right }
{
    Pair { left, right }
}
