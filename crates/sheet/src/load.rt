ghost use Rattle.std.specs.Prelude.{◌≡◌, IfOk};
ghost use Rattle.questions.specs.Asking.{first_no, refusal_of};
ghost use Rattle.sheet.specs.Loading.{sheet_asked, sheet_refusal};
ghost use Rattle.sheet.specs.Meaning.{sheet_meaning, bytes_meaning};

use crate::fault::SheetFault;
use crate::layout::RowLayout;
use crate::sheet::Sheet;
use model::group_set::GroupSet;
use model::range::Range;

impl Sheet {
    /// The sheet with the rows in `bytes`, or a refusal with question 8 or 9.
    pub fn load(range: Range, channels: GroupSet, bytes: &[u8]) -> Result<Sheet, SheetFault>
        ensures refuses { refusal_of sheet_refusal result ≡ first_no (sheet_asked range.lo range.hi channels bytes.now) }
        ensures makes { IfOk result (λ x. sheet_meaning x ≡ bytes_meaning range.lo range.hi channels bytes.now) }
    {
        let rows = tables::load(&RowLayout { range, channels }, bytes)?;
        Ok(Sheet {
            range,
            channels,
            rows,
        })
    }
}
