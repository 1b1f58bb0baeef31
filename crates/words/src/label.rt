ghost use Rattle.std.specs.Prelude.{Some};
ghost use Rattle.words.specs.Texts.{label_text};

use model::label::Label;
use std::fmt;

/// A label in words, as `broadcast of -2 on {0}`.
#[derive(Clone, Copy)]
pub struct LabelWords(pub Label);

impl fmt::Display for LabelWords {
    ghost output = { λ x. Some (label_text x.0) };

    fn fmt<W: fmt::Write>(&self, f: &mut fmt::Formatter<W>) -> fmt::Result {
        match self.0 {
            Label::Silent => f.write_str("silent"),
            Label::Movement => f.write_str("movement"),
            Label::Broadcast { groups, value } => write!(f, "broadcast of {value} on {groups}"),
            Label::Receive { groups } => write!(f, "receive on {groups}"),
        }
    }
}
