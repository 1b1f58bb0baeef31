ghost use Rattle.std.specs.Prelude.{◌≤◌};

use crate::group_set::GroupSet;
use crate::unit_state::UNITS;

/// A placement: 1 to 6 units with their group sets. The slots past the last unit say nothing.
// An array with a count: a rule is asked in judging, which asks for no memory.
#[derive(Clone, Copy, Debug)]
pub struct Placement {
    pub units: usize,
    pub slots: [GroupSet; UNITS],
    ghost some: { 1 ≤ units },
    ghost most: { units ≤ 6 },
}

/// How many units a network has: 1 to 6.
#[derive(Clone, Copy, PartialEq, Eq, Debug)]
pub struct UnitCount {
    pub(crate) count: usize,
    ghost some: { 1 ≤ count },
    ghost most: { count ≤ 6 },
}

/// A placement or a network has 1 to 6 units.
#[derive(Clone, Copy, PartialEq, Eq, Debug)]
pub struct BadUnitCount;
