// Nothing that tells two of these apart is left out of a comparison.
ghost use Rattle.std.proofs.Common.{rules};
ghost use Rattle.model.specs.Exactly.{unit_exact, state_exact, pair_exact};

use crate::group_set::GroupSet;
use crate::label::Label;
use crate::state::{Pair, State};
use crate::unit_state::UnitState;
use lookup::Exact;

impl Exact for GroupSet {
    ghost exact = { Prim.search rules };
}

impl Exact for UnitState {
    ghost exact = { unit_exact };
}

impl Exact for State {
    ghost exact = { state_exact };
}

impl Exact for Pair {
    ghost exact = { pair_exact };
}

impl Exact for Label {
    ghost exact = { Prim.search rules };
}
