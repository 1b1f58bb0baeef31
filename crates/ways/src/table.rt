ghost use Rattle.std.specs.Prelude.{◌≤◌};

use model::group_set::GroupSet;
use rows::program::Program;

/// A network without its mobility rule: its free groups, how many units it has, and the program that all of them follow.
/// It is made of parts that have passed their questions, and cannot be changed.
// Its bounds are a placement's too: each of the two is read by its own fields.
// It has no model: one would show a net alone, and what a network keeps as a system needs the order of the range too.
#[derive(Drop)]
pub struct Table {
    pub(crate) free: GroupSet,
    pub(crate) units: usize,
    pub(crate) program: Program,
    ghost some: { 1 ≤ units },
    ghost most: { units ≤ 6 },
}
