ghost use Rattle.std.specs.Prelude.{◌≡◌, true, List, Decides, IfOk};
ghost use Rattle.model.specs.declared.group_set.GroupSet.{GroupSet};
ghost use Rattle.questions.specs.Asking.{first_no, refusal_of};
ghost use Rattle.rules.specs.Admitting.{none_barred};
ghost use Rattle.rules.specs.Changing.{links_followed};
ghost use Rattle.rules.specs.Faults.{rule_refusal};
ghost use Rattle.rules.specs.LinkRules.{meets, Meets, links_allow, links_allow_change, links_asked, links_of};

use crate::fault::RuleFault;
use crate::link::{Link, LinkLayout, MOST_LINKS};
use crate::rule::Rule;
use arrayvec::ArrayVec;
use model::group_set::GroupSet;
use model::placement::Placement;
use tables::load;

/// Every link is met.
#[derive(Drop)]
pub struct Links {
    links: ArrayVec<Link, MOST_LINKS>,
}

impl Links {
    /// The rule of the link records in `bytes`, or a refusal with question 2 or 3.
    pub fn load(bytes: &[u8]) -> Result<Links, RuleFault>
        ensures refuses { refusal_of rule_refusal result ≡ first_no (links_asked bytes.now) }
        ensures means { IfOk result (λ x. links_allow x ≡ meets (links_of bytes.now)) }
        ensures met { IfOk result (λ x. (sets : List GroupSet) → Decides (links_allow x sets) (Meets (links_of bytes.now) sets)) }
    {
        // the one loader and a name; not generic over the rule, since the contract names definitions of this one
        Ok(Links {
            links: load(&LinkLayout, bytes)?,
        })
    }
}

impl Rule for Links {
    ghost allowed = { links_allow };

    // a link speaks of two units, so one set tells nothing
    ghost admitted = { λ _ _. true };

    ghost change_allowed = { links_allow_change };

    ghost bars = { λ _ _ _ _ no _. none_barred no };

    ghost follows = { λ x sets unit set yes _. links_followed sets unit set x.links.items yes };

    fn allows(&self, placement: &Placement) -> bool {
        let sets = placement.sets();
        self.links.iter().all(|link| link.is_met(sets))
    }

    fn admits(&self, _set: GroupSet) -> bool {
        true
    }

    fn allows_change(&self, placement: &Placement, unit: usize, set: GroupSet) -> bool {
        let sets = placement.sets();
        self.links
            .iter()
            .all(|link| link.is_met_after(sets, unit, set))
    }
}
