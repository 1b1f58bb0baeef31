ghost use Rattle.std.specs.Prelude.{◌≡◌, ◌≤◌, take, IfOk, Some, codes};
ghost use Rattle.questions.specs.Asking.{first_no, refusal_of};
ghost use Rattle.model.specs.Placements.{sets_of, units_asked, units_refusal};

use crate::group_set::GroupSet;
use crate::placement::{BadUnitCount, Placement, UnitCount};
use crate::unit_state::UNITS;
use questions::Refusal;
use std::error::Error;
use std::fmt;

impl Placement {
    /// The placement of the first `units` slots, or a refusal with question 5.
    pub fn new(units: usize, slots: [GroupSet; UNITS]) -> Result<Placement, BadUnitCount>
        ensures refuses { refusal_of units_refusal result ≡ first_no (units_asked units) }
        ensures makes { IfOk result (λ p. sets_of p ≡ take units slots) }
    {
        let units = UnitCount::new(units)?.get();
        Ok(Placement { units, slots })
    }

    /// The sets of the units, in their order.
    pub fn sets(&self) -> &[GroupSet]
        ensures { result.now ≡ sets_of self.now }
    {
        &self.slots[0..self.units]
    }
}

impl UnitCount {
    /// This count of units, or a refusal with question 5.
    pub fn new(count: usize) -> Result<UnitCount, BadUnitCount>
        ensures refuses { refusal_of units_refusal result ≡ first_no (units_asked count) }
        ensures makes { IfOk result (λ n. n.count ≡ count) }
    {
        if (1..=UNITS).contains(&count) {
            Ok(UnitCount { count })
        } else {
            Err(BadUnitCount)
        }
    }

    /// The count, from 1 to 6.
    pub fn get(self) -> usize
        ensures is { result ≡ self.count }
        ensures some { 1 ≤ result }
        ensures most { result ≤ 6 }
    {
        self.count
    }
}

impl BadUnitCount {
    pub fn refusal(&self) -> Refusal
        ensures { result ≡ units_refusal self.now }
    {
        Refusal::of(5, 0)
    }
}

impl fmt::Display for BadUnitCount {
    ghost output = { λ _. Some (codes "there are not 1 to 6 units") };

    fn fmt<W: fmt::Write>(&self, f: &mut fmt::Formatter<W>) -> fmt::Result {
        f.write_str("there are not 1 to 6 units")
    }
}

impl Error for BadUnitCount {}
