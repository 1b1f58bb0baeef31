ghost use Rattle.std.specs.Prelude.{◌≡◌, Decides, IfOk};
ghost use Rattle.questions.specs.Asking.{first_no, refusal_of};
ghost use Rattle.rules.specs.Admitting.{one_refused};
ghost use Rattle.rules.specs.Changing.{one_changed};
ghost use Rattle.rules.specs.Faults.{rule_refusal};
ghost use Rattle.rules.specs.Tuners.{few_groups, tuned_to, Tuned, tuner_asked};
ghost use Rattle.model.specs.Placements.{sets_of};

use crate::fault::RuleFault;
use crate::rule::Rule;
use crate::tuner::Tuner;
use model::group_set::GroupSet;
use model::placement::Placement;

impl Tuner {
    /// The tuner with this limit, or a refusal with question 4.
    pub fn new(limit: u8) -> Result<Tuner, RuleFault>
        ensures refuses { refusal_of rule_refusal result ≡ first_no (tuner_asked limit) }
        ensures makes { IfOk result (λ x. x.limit ≡ limit) }
    {
        if limit <= 8 {
            Ok(Tuner { limit })
        } else {
            Err(RuleFault::Limit)
        }
    }

    /// The most groups that a unit may sit on, from 0 to 8.
    pub fn limit(&self) -> u8
        ensures { result ≡ self.now.limit }
    {
        self.limit
    }
}

impl Rule for Tuner {
    ghost allowed = { λ x. tuned_to x.limit };

    ghost admitted = { λ x. few_groups x.limit };

    ghost change_allowed = { λ x _ _. few_groups x.limit };

    ghost bars = { λ x set sets unit no at. one_refused (few_groups x.limit) sets unit set at no };

    ghost follows = { λ x sets unit set yes there. one_changed (λ _. few_groups x.limit) sets unit set yes there };

    fn allows(&self, placement: &Placement) -> bool
        ensures is { result ≡ tuned_to self.now.limit (sets_of placement.now) }
        ensures tuned { Decides result (Tuned self.now.limit (sets_of placement.now)) }
    {
        placement
            .sets()
            .iter()
            .all(|set| set.count() <= u32::from(self.limit))
    }

    fn admits(&self, set: GroupSet) -> bool {
        set.count() <= u32::from(self.limit)
    }

    fn allows_change(&self, _placement: &Placement, _unit: usize, set: GroupSet) -> bool {
        self.admits(set)
    }
}
