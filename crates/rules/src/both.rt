ghost use Rattle.std.specs.Prelude.{◌&&◌};
ghost use Rattle.rules.specs.Admitting.{both_barred};
ghost use Rattle.rules.specs.Changing.{both_followed};

use crate::rule::Rule;
use model::group_set::GroupSet;
use model::placement::Placement;

/// What both of two rules allow.
#[derive(Drop)]
pub struct Both<A, B> {
    pub one: A,
    pub other: B,
}

impl<A: Rule, B: Rule> Rule for Both<A, B> {
    ghost allowed = { λ x sets. A.Rule.allowed x.one sets && B.Rule.allowed x.other sets };

    ghost admitted = { λ x set. A.Rule.admitted x.one set && B.Rule.admitted x.other set };

    ghost change_allowed = { λ x sets unit set. A.Rule.change_allowed x.one sets unit set && B.Rule.change_allowed x.other sets unit set };

    ghost bars = { λ x set sets unit no at. both_barred _ _ _ _ (λ a. A.Rule.bars x.one set sets unit a at) (λ b. B.Rule.bars x.other set sets unit b at) no };

    ghost follows = { λ x sets unit set yes there. both_followed _ _ _ _ _ _ (λ a. A.Rule.follows x.one sets unit set a there) (λ b. B.Rule.follows x.other sets unit set b there) yes };

    fn allows(&self, placement: &Placement) -> bool {
        self.one.allows(placement) && self.other.allows(placement)
    }

    fn admits(&self, set: GroupSet) -> bool {
        self.one.admits(set) && self.other.admits(set)
    }

    fn allows_change(&self, placement: &Placement, unit: usize, set: GroupSet) -> bool {
        self.one.allows_change(placement, unit, set)
            && self.other.allows_change(placement, unit, set)
    }
}
