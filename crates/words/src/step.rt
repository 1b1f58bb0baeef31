ghost use Rattle.std.specs.Prelude.{◌≡◌, Some};
ghost use Rattle.systems.specs.Meaning.{receives};
ghost use Rattle.words.specs.Texts.{state_text};
ghost use Rattle.words.specs.Steps.{landings_text, step_text};

use crate::label::LabelWords;
use crate::units::UnitLines;
use model::label::Label;
use model::state::State;
use model::value::Value;
use std::fmt;

/// A step of a state, as it is shown: its label, and where it lands at the lowest and the highest value of the range.
#[derive(Clone, Copy)]
pub struct ShownStep {
    /// How many units the state's network has.
    pub units: usize,
    pub state: State,
    pub label: Label,
    pub lo: Value,
    pub at_lo: State,
    pub hi: Value,
    pub at_hi: State,
}

/// The units that a state has, each on a line of its own.
#[derive(Clone, Copy)]
struct StateWords {
    units: usize,
    state: State,
}

impl fmt::Display for StateWords {
    ghost output = { λ x. Some (state_text x.units x.state) };

    #[tactic(auto, unfolding(crate::specs::Texts::state_text))]
    fn fmt<W: fmt::Write>(&self, f: &mut fmt::Formatter<W>) -> fmt::Result {
        let units = self.state.units.as_slice();
        let shown = self.units.min(units.len());
        let lines = UnitLines(&units[..shown]);
        write!(f, "{lines}")
    }
}

/// Where a step lands. Only a receive can land differently by value.
#[derive(Clone, Copy)]
struct Landings(ShownStep);

fn is_receive(label: &Label) -> bool
    ensures { result ≡ receives label.now }
{
    matches!(label, Label::Receive { .. })
}

impl fmt::Display for Landings {
    ghost output = { λ x. Some (landings_text x.0) };

    fn fmt<W: fmt::Write>(&self, f: &mut fmt::Formatter<W>) -> fmt::Result {
        let ShownStep {
            units,
            label,
            lo,
            hi,
            ..
        } = self.0;
        let at_lo = StateWords {
            units,
            state: self.0.at_lo,
        };
        if !is_receive(&label) {
            return write!(f, "It lands in:\n{at_lo}");
        }
        let at_hi = StateWords {
            units,
            state: self.0.at_hi,
        };
        write!(
            f,
            "It lands by the value that is received. At {lo} it lands in:\n{at_lo}At {hi} it lands in:\n{at_hi}"
        )
    }
}

impl fmt::Display for ShownStep {
    ghost output = { λ x. Some (step_text x) };

    #[tactic(auto, unfolding(crate::specs::Steps::step_text))]
    fn fmt<W: fmt::Write>(&self, f: &mut fmt::Formatter<W>) -> fmt::Result {
        let state = StateWords {
            units: self.units,
            state: self.state,
        };
        let label = LabelWords(self.label);
        let landings = Landings(*self);
        write!(f, "The state:\n{state}The step: {label}\n{landings}")
    }
}
