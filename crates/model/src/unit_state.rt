use crate::group_set::GroupSet;
use crate::value::Value;

/// How many units a state has room for.
pub const UNITS: usize = 6;

/// One unit: where its program stands, its two registers, and the groups it sits on.
#[derive(Clone, Copy, PartialEq, Eq, Default, Debug)]
pub struct UnitState {
    pub location: u8,
    pub first: Value,
    pub second: Value,
    pub groups: GroupSet,
}
