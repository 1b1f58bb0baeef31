// Every refusal of the product is the first no among questions that are put in a stated order. What a question is, and
// which no is the first, stands in specs/Asking.antt; the laws of it in proofs/.
#![tactic(auto)]

ghost use Rattle.std.specs.Prelude.{◌≡◌, ◌++◌, Some, codes};
ghost use Rattle.std.specs.Fmt.{decimal};
ghost use Rattle.questions.specs.Asking.{refuse_at};
ghost use Rattle.questions.specs.Sides.{side_byte, ReadsSide};

use std::error::Error;
use std::fmt;

/// One of the two systems that are compared.
#[derive(Clone, Copy, PartialEq, Eq, Debug)]
pub enum Side {
    Left,
    Right,
}

/// The byte that stands for the side in a job and in its verdict.
impl From<Side> for u8 {
    ghost from_gives = { λ side byte. byte ≡ side_byte side };

    fn from(side: Side) -> u8 {
        match side {
            Side::Left => 0,
            Side::Right => 1,
        }
    }
}

/// A byte that stands for no side.
#[derive(Clone, Copy, PartialEq, Eq, Debug)]
pub struct NoSide(pub u8);

impl TryFrom<u8> for Side {
    type Error = NoSide;

    ghost try_from_gives = { ReadsSide };

    fn try_from(byte: u8) -> Result<Side, NoSide> {
        match byte {
            0 => Ok(Side::Left),
            1 => Ok(Side::Right),
            _ => Err(NoSide(byte)),
        }
    }
}

impl fmt::Display for NoSide {
    ghost output = { λ e. Some (codes "no side has the byte " ++ decimal e.0) };

    fn fmt<W: fmt::Write>(&self, f: &mut fmt::Formatter<W>) -> fmt::Result {
        write!(f, "no side has the byte {}", self.0)
    }
}

impl Error for NoSide {}

/// What a no says: the number of its question, and what goes with it. The side is `Left` and the numbers are 0 where the
/// question has none.
// The question is a number since a verdict's bytes are written from this; the faults that stand for it are enums.
#[derive(Clone, Copy, PartialEq, Eq, Debug)]
pub struct Refusal {
    pub question: u8,
    pub side: Side,
    /// The number of the record, row or pair, in its own list.
    pub item: usize,
    pub step: u64,
}

impl Refusal {
    /// The refusal of a question about the item with the number `item` of a list, or of one that has no item, with 0.
    pub fn of(question: u8, item: usize) -> Refusal
        ensures { result ≡ refuse_at question item }
    {
        Refusal {
            question,
            side: Side::Left,
            item,
            step: 0,
        }
    }
}
