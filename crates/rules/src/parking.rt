ghost use Rattle.std.specs.Prelude.{◌≡◌, true, List, Decides, IfOk};
ghost use Rattle.model.specs.declared.group_set.GroupSet.{GroupSet};
ghost use Rattle.questions.specs.Asking.{first_no, refusal_of};
ghost use Rattle.rules.specs.Admitting.{none_barred};
ghost use Rattle.rules.specs.Changing.{one_changed};
ghost use Rattle.rules.specs.Faults.{rule_refusal};
ghost use Rattle.rules.specs.Parkings.{recorded, parks, Parked, parking_allows, parking_allows_change, parking_asked, places_of};

use crate::fault::RuleFault;
use crate::place::{MOST_PLACES, Place, PlaceLayout};
use crate::rule::Rule;
use arrayvec::ArrayVec;
use lookup::first_equal;
use model::group_set::GroupSet;
use model::placement::Placement;
use tables::load;

/// Every unit's set is recorded for that unit.
#[derive(Drop)]
pub struct Parking {
    places: ArrayVec<Place, MOST_PLACES>,
}

impl Parking {
    /// The rule of the parking records in `bytes`, or a refusal with question 2 or 3.
    pub fn load(bytes: &[u8]) -> Result<Parking, RuleFault>
        ensures refuses { refusal_of rule_refusal result ≡ first_no (parking_asked bytes.now) }
        ensures means { IfOk result (λ x. parking_allows x ≡ parks (places_of bytes.now)) }
        ensures parked { IfOk result (λ x. (sets : List GroupSet) → Decides (parking_allows x sets) (Parked (places_of bytes.now) sets)) }
    {
        // the one loader and a name; not generic over the rule, since the contract names definitions of this one
        Ok(Parking {
            places: load(&PlaceLayout, bytes)?,
        })
    }

    /// Whether the set is recorded for the unit.
    fn records(&self, unit: usize, set: GroupSet) -> bool
        ensures { result ≡ recorded self.now.places.items unit set }
    {
        first_equal(self.places.as_slice(), &Place { unit, set }).is_some()
    }
}

impl Rule for Parking {
    ghost allowed = { parking_allows };

    // a set is recorded for a unit, so it is asked about with the unit
    ghost admitted = { λ _ _. true };

    ghost change_allowed = { parking_allows_change };

    ghost bars = { λ _ _ _ _ no _. none_barred no };

    ghost follows = { λ x sets unit set yes there. one_changed (recorded x.places.items) sets unit set yes there };

    fn allows(&self, placement: &Placement) -> bool {
        placement
            .sets()
            .iter()
            .enumerate()
            .all(|(unit, set)| self.records(unit, *set))
    }

    fn admits(&self, _set: GroupSet) -> bool {
        true
    }

    fn allows_change(&self, _placement: &Placement, unit: usize, set: GroupSet) -> bool {
        self.records(unit, set)
    }
}
