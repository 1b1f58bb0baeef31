ghost use Rattle.std.specs.Prelude.{Some};
ghost use Rattle.words.specs.Texts.{unit_text, units_text};

use model::unit_state::UnitState;
use std::fmt;

/// A unit of a state, on a line of its own.
#[derive(Clone, Copy)]
struct UnitLine {
    number: usize,
    unit: UnitState,
}

/// The units of a state, each on a line of its own.
#[derive(Clone, Copy)]
pub struct UnitLines<'a>(pub &'a [UnitState]);

impl fmt::Display for UnitLine {
    ghost output = { λ x. Some (unit_text x.number x.unit) };

    #[tactic(auto, unfolding(crate::specs::Texts::unit_text))]
    fn fmt<W: fmt::Write>(&self, f: &mut fmt::Formatter<W>) -> fmt::Result {
        let number = self.number;
        let UnitState {
            location,
            first,
            second,
            groups,
        } = self.unit;
        write!(
            f,
            "  unit {number}: location {location}, registers {first} and {second}, groups {groups}\n"
        )
    }
}

impl fmt::Display for UnitLines<'_> {
    ghost output = { λ x. Some (units_text x.0.now) };

    fn fmt<W: fmt::Write>(&self, f: &mut fmt::Formatter<W>) -> fmt::Result {
        for (number, unit) in self.0.iter().enumerate() {
            let line = UnitLine {
                number,
                unit: *unit,
            };
            write!(f, "{line}")?;
        }
        Ok(())
    }
}
