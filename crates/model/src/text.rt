// How the vocabulary is written for a person.
ghost use Rattle.std.specs.Prelude.{Some};
ghost use Rattle.model.specs.Text.{set_text, unit_text, label_text};

use crate::group_set::GroupSet;
use crate::label::Label;
use crate::unit_state::UnitState;
use std::fmt;

/// As `{0, 3}`.
impl fmt::Display for GroupSet {
    ghost output = { λ set. Some (set_text set) };

    fn fmt<W: fmt::Write>(&self, f: &mut fmt::Formatter<W>) -> fmt::Result {
        write!(f, "{{")?;
        // The groups are the bits that are set: there is no collection of them to print.
        let mut separator = "";
        for group in 0..8u8 {
            if (self.bits >> group) & 1 == 1 {
                write!(f, "{separator}{group}")?;
                separator = ", ";
            }
        }
        write!(f, "}}")
    }
}

/// As `(2, -2, 0, {0})`: location, first register, second register, groups.
impl fmt::Display for UnitState {
    ghost output = { λ unit. Some (unit_text unit) };

    fn fmt<W: fmt::Write>(&self, f: &mut fmt::Formatter<W>) -> fmt::Result {
        write!(
            f,
            "({}, {}, {}, {})",
            self.location, self.first, self.second, self.groups
        )
    }
}

impl fmt::Display for Label {
    ghost output = { λ label. Some (label_text label) };

    fn fmt<W: fmt::Write>(&self, f: &mut fmt::Formatter<W>) -> fmt::Result {
        match *self {
            Label::Silent => write!(f, "silent"),
            Label::Movement => write!(f, "movement"),
            Label::Broadcast { groups, value } => write!(f, "broadcast {groups} {value}"),
            Label::Receive { groups } => write!(f, "receive {groups}"),
        }
    }
}
