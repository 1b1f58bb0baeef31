ghost use Rattle.std.specs.Prelude.{◌≡◌, ◌≤◌, length, true, IfOk};
ghost use Rattle.lists.specs.Words.{every};
ghost use Rattle.questions.specs.Asking.{first_no, refusal_of};
ghost use Rattle.tables.specs.Table.{table_refusal};
ghost use Rattle.rows.specs.Programs.{rows_asked, rows_of, row_in_range};

use crate::layout::{MOST_ROWS, RowLayout};
use crate::row::Row;
use arrayvec::ArrayVec;
use model::range::Range;
use tables::TableFault;

/// A program: at most 64 rows, which keep the range and the locations. It is made by its load, and cannot be changed.
#[derive(Drop)]
pub struct Program {
    range: Range,
    rows: ArrayVec<Row, MOST_ROWS>,
    ghost few: { length rows.items ≤ 64 },
    ghost kept: { every (row_in_range range.lo range.hi) rows.items ≡ true },
}

impl Program {
    /// The program in the bytes of its rows. Its questions are 6 (whole rows, at most 64?) and, of each row, 7 (as laid out?).
    pub fn load(range: Range, bytes: &[u8]) -> Result<Program, TableFault>
        ensures refuses { refusal_of (table_refusal 6 7) result ≡ first_no (rows_asked range.lo range.hi bytes.now) }
        ensures range { IfOk result (λ p. p.range ≡ range) }
        ensures rows { IfOk result (λ p. p.rows.items ≡ rows_of range.lo range.hi bytes.now) }
    {
        let rows = tables::load(&RowLayout { range }, bytes)?;
        Ok(Program { range, rows })
    }

    /// The range that the registers keep.
    pub fn range(&self) -> Range
        ensures { result ≡ self.now.range }
    {
        self.range
    }

    /// The rows, in their order.
    pub fn rows(&self) -> &[Row]
        ensures is { result.now ≡ self.now.rows.items }
        ensures few { length result.now ≤ 64 }
    {
        self.rows.as_slice()
    }
}
