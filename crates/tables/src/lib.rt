// Tables of records of one width in bytes, each in room of its own bound: what a table is asked stands in specs/Table.antt.
#![tactic(auto)]

ghost use Rattle.std.specs.Prelude.{◌≡◌, ℕ, ◌<◌, List, Some, IfOk, Option, ok_or};
ghost use Rattle.lists.specs.Words.{records, gathered};
ghost use Rattle.tables.specs.Table.{Answers, table_refusal, fault_text};
ghost use Rattle.tables.specs.declared.TableFault.TheVariants.{Record};

#[cfg(test)]
mod tests;

use arrayvec::ArrayVec;
use questions::Refusal;
use std::error::Error;
use std::fmt;

/// Why a table is not loaded.
#[derive(Clone, Copy, PartialEq, Eq, Debug)]
pub enum TableFault {
    /// The bytes are no whole records, or they are too many.
    Count,
    /// This record, by its number from 0, is not as laid out.
    Record { number: usize },
}

impl TableFault {
    /// The refusal that the fault stands for, where the questions to the whole table and to each record have these numbers.
    pub fn refusal(&self, whole: u8, each: u8) -> Refusal
        ensures { result ≡ table_refusal whole each self.now }
    {
        match *self {
            TableFault::Count => Refusal::of(whole, 0),
            TableFault::Record { number } => Refusal::of(each, number),
        }
    }
}

impl fmt::Display for TableFault {
    ghost output = { λ fault. Some (fault_text fault) };

    fn fmt<W: fmt::Write>(&self, f: &mut fmt::Formatter<W>) -> fmt::Result {
        match *self {
            TableFault::Count => f.write_str("the bytes are no whole records, or too many"),
            TableFault::Record { number } => write!(f, "record {number} is not as laid out"),
        }
    }
}

impl Error for TableFault {}

/// How the records of a table are laid out in bytes: how many bytes a record has, how many records a table has at the
/// most, and what a record's bytes stand for, if they are as laid out.
pub trait Layout<R, const MOST: usize> {
    ghost width: { Self → ℕ };

    ghost parse: { Self → List ℕ → Option R };

    /// How many bytes a record has, at least one. A layout may know it only when the program runs.
    fn width(&self) -> usize
        ensures is { result ≡ width self.now }
        ensures some { 0 < result };

    /// What the bytes of the record with this number stand for, or the fault that it is not as laid out.
    fn read(&self, number: usize, bytes: &[u8]) -> Result<R, TableFault>
        ensures { result ≡ ok_or (parse self.now bytes.now) (Record number) };
}

/// The records of a table, which is read once: the first no among its questions decides.
pub fn load<R: Default + Drop, L: Layout<R, MOST>, const MOST: usize>(
    layout: &L,
    bytes: &[u8],
) -> Result<ArrayVec<R, MOST>, TableFault>
    ensures answers { Answers result (L.width layout.now) MOST (L.parse layout.now) bytes.now }
    ensures loads { IfOk result (λ v. v.items ≡ gathered (L.parse layout.now) (records (L.width layout.now) bytes.now)) }
{
    let width = layout.width();
    if bytes.len() % width != 0 || bytes.len() / width > MOST {
        return Err(TableFault::Count);
    }
    let mut table = ArrayVec::new();
    for record in bytes.chunks_exact(width) {
        table.push(layout.read(table.len(), record)?);
    }
    Ok(table)
}
