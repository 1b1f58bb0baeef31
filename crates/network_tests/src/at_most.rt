ghost use Rattle.network_tests.specs.AtMost.{few_groups, within};
ghost use Rattle.rules.specs.Admitting.{one_refused};
ghost use Rattle.rules.specs.Changing.{one_changed};

use model::group_set::GroupSet;
use model::placement::Placement;
use rules::rule::Rule;

/// No unit sits on more groups than the limit.
// A rule of this crate's own, as a caller may write one: that it says what a tuner says is for the tests to compare.
#[derive(Clone, Copy)]
pub struct AtMost {
    pub limit: u32,
}

impl Rule for AtMost {
    ghost allowed = { λ x. within x.limit };

    ghost admitted = { λ x. few_groups x.limit };

    ghost change_allowed = { λ x _ _. few_groups x.limit };

    ghost bars = { λ x set sets unit no at. one_refused (few_groups x.limit) sets unit set at no };

    ghost follows = { λ x sets unit set yes there. one_changed (λ _. few_groups x.limit) sets unit set yes there };

    fn allows(&self, placement: &Placement) -> bool {
        placement.sets().iter().all(|set| set.count() <= self.limit)
    }

    fn admits(&self, set: GroupSet) -> bool {
        set.count() <= self.limit
    }

    fn allows_change(&self, _placement: &Placement, _unit: usize, set: GroupSet) -> bool {
        self.admits(set)
    }
}
