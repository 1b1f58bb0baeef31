ghost use Rattle.std.specs.Prelude.{◌≡◌, Some};
ghost use Rattle.tables.specs.Table.{fault_text};
ghost use Rattle.sheet.specs.Loading.{sheet_refusal};

use questions::Refusal;
use std::error::Error;
use std::fmt;
use tables::TableFault;

/// Why a sheet is not loaded: its rows are no table of at most 128 rows as laid out.
#[derive(Clone, Copy, PartialEq, Eq, Debug)]
pub struct SheetFault(pub TableFault);

impl SheetFault {
    /// The refusal with question 8 or 9.
    pub fn refusal(&self) -> Refusal
        ensures { result ≡ sheet_refusal self.now }
    {
        self.0.refusal(8, 9)
    }
}

// by hand: what a derive writes has no contract, and loads say which fault a `?` makes (docs/DECISIONS.md)
impl From<TableFault> for SheetFault {
    ghost from_gives = { λ e r. r ≡ record { 0 = e } };

    fn from(e: TableFault) -> SheetFault {
        SheetFault(e)
    }
}

impl fmt::Display for SheetFault {
    ghost output = { λ fault. Some (fault_text fault.0) };

    fn fmt<W: fmt::Write>(&self, f: &mut fmt::Formatter<W>) -> fmt::Result {
        write!(f, "{}", self.0)
    }
}

impl Error for SheetFault {}
