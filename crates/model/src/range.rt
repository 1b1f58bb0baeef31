ghost use Rattle.std.specs.Prelude.{◌≤ℤ◌};

use crate::value::Value;

/// The values from `lo` to `hi`. Every range keeps `lo <= hi`: it is made by a call that refuses any other one, and its
/// bounds cannot be changed.
#[derive(Clone, Copy, PartialEq, Eq, Debug)]
pub struct Range {
    pub(crate) lo: Value,
    pub(crate) hi: Value,
    ghost ordered: { lo ≤ℤ hi },
}

/// The bounds of a range are the wrong way round.
#[derive(Clone, Copy, PartialEq, Eq, Debug)]
pub struct Backward;
