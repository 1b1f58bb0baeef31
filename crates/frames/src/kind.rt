ghost use Rattle.std.specs.Prelude.{◌≡◌, ◌≤◌, ◌++◌, Some, codes};
ghost use Rattle.std.specs.Fmt.{decimal};
ghost use Rattle.frames.specs.Kinds.{kind_byte, kind_of, width_of};

use std::error::Error;
use std::fmt;

/// What a record is of.
#[derive(Clone, Copy, PartialEq, Eq, Debug)]
pub enum Kind {
    Setting,
    Row,
    Link,
    Pair,
}

/// A byte that stands for no kind of record.
#[derive(Clone, Copy, PartialEq, Eq, Debug)]
pub struct NoKind(pub u8);

impl TryFrom<u8> for Kind {
    type Error = NoKind;

    ghost try_from_gives = { λ byte r. r ≡ kind_of byte };

    fn try_from(byte: u8) -> Result<Self, NoKind> {
        match byte {
            1 => Ok(Kind::Setting),
            2 => Ok(Kind::Row),
            3 => Ok(Kind::Link),
            4 => Ok(Kind::Pair),
            _ => Err(NoKind(byte)),
        }
    }
}

impl From<Kind> for u8 {
    ghost from_gives = { λ kind byte. byte ≡ kind_byte kind };

    fn from(kind: Kind) -> u8 {
        match kind {
            Kind::Setting => 1,
            Kind::Row => 2,
            Kind::Link => 3,
            Kind::Pair => 4,
        }
    }
}

impl Kind {
    /// How many bytes of payload follow the record's kind and side.
    pub fn width(self) -> usize
        ensures value { result ≡ width_of self }
        ensures fits { result ≤ 48 }
    {
        match self {
            Kind::Setting => 5,
            Kind::Row => 16,
            Kind::Link => 3,
            Kind::Pair => 48,
        }
    }
}

impl fmt::Display for NoKind {
    ghost output = { λ e. Some (codes "no kind of record has the byte " ++ decimal e.0) };

    fn fmt<W: fmt::Write>(&self, f: &mut fmt::Formatter<W>) -> fmt::Result {
        write!(f, "no kind of record has the byte {}", self.0)
    }
}

impl Error for NoKind {}
