ghost use Rattle.std.specs.Prelude.{◌≡◌, ℕ, ◌<◌, Bool, true, false, List, length, slice_set};
ghost use Rattle.lists.specs.Words.{Stands};
ghost use Rattle.model.specs.Placements.{sets_of};
ghost use Rattle.model.specs.declared.group_set.GroupSet.{GroupSet};

use model::group_set::GroupSet;
use model::placement::Placement;

/// A mobility rule means a set of placements, each given by the sets of its units. It answers yes exactly when that set
/// holds the placement, and answering changes nothing.
// Two cheaper questions stand beside it, each with a meaning of its own and a law that ties it to what is allowed.
pub trait Rule {
    ghost allowed: { Self → List GroupSet → Bool };

    ghost admitted: { Self → GroupSet → Bool };

    ghost change_allowed: { Self → List GroupSet → ℕ → GroupSet → Bool };

    fn allows(&self, placement: &Placement) -> bool
        ensures { result ≡ allowed self.now (sets_of placement.now) };

    /// Whether the rule admits the set, as far as one set tells. A set that is not admitted is in no placement that is
    /// allowed.
    fn admits(&self, set: GroupSet) -> bool
        ensures { result ≡ admitted self.now set };

    /// Of a placement that is allowed: whether it is still allowed with the unit, one of its own, on the set. Of any
    /// other placement the answer tells nothing.
    fn allows_change(&self, placement: &Placement, unit: usize, set: GroupSet) -> bool
        ensures { result ≡ change_allowed self.now (sets_of placement.now) unit set };

    ghost bars: { (x : Self) (set : GroupSet) (sets : List GroupSet) (unit : ℕ) → admitted x set ≡ false → Stands sets set unit → allowed x sets ≡ false };

    ghost follows: { (x : Self) (sets : List GroupSet) (unit : ℕ) (set : GroupSet) → allowed x sets ≡ true → unit < length sets → change_allowed x sets unit set ≡ allowed x (slice_set sets unit set) };
}
