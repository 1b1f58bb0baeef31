ghost use Rattle.std.specs.Prelude.{◌≡◌, filter};
ghost use Rattle.network.specs.Meanings.{set_of, set_numbers};

use arrayvec::ArrayVec;
use rules::rule::Rule;
use ways::table::Table;

/// How many sets there are: room for that many is room for all that a rule admits.
pub const SETS: usize = 256;

/// A network: its units and their program, and a mobility rule of any kind. The sets that the rule admits are listed once
/// for all states. It is made by its load, and cannot be changed.
// It has no model: a model's value holds no functions, and the set that a rule allows is one.
#[derive(Drop)]
pub struct Network<R: Rule> {
    pub(crate) table: Table,
    pub(crate) rule: R,
    pub(crate) sets: ArrayVec<u8, SETS>,
    ghost listed: { sets.items ≡ filter (λ b. R.Rule.admitted rule (set_of b)) set_numbers },
}
