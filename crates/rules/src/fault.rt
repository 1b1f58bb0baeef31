ghost use Rattle.std.specs.Prelude.{◌≡◌, Some};
ghost use Rattle.rules.specs.Faults.{rule_refusal, rule_fault_text};
ghost use Rattle.rules.specs.declared.fault.RuleFault.TheVariants.{Table};

use questions::Refusal;
use std::error::Error;
use std::fmt;
use tables::TableFault;

/// Why a rule is not made.
#[derive(Clone, Copy, PartialEq, Eq, Debug)]
pub enum RuleFault {
    /// The records are no table of whole records, of few enough, each as laid out.
    Table(TableFault),
    /// The tuner's limit is above 8.
    Limit,
}

impl RuleFault {
    /// The refusal with question 2, 3 or 4.
    pub fn refusal(&self) -> Refusal
        ensures { result ≡ rule_refusal self.now }
    {
        match self {
            RuleFault::Table(fault) => fault.refusal(2, 3),
            RuleFault::Limit => Refusal::of(4, 0),
        }
    }
}

// by hand: what a derive writes has no contract, and loads say which fault a `?` makes (docs/DECISIONS.md)
impl From<TableFault> for RuleFault {
    ghost from_gives = { λ e r. r ≡ Table e };

    fn from(e: TableFault) -> RuleFault {
        RuleFault::Table(e)
    }
}

impl fmt::Display for RuleFault {
    ghost output = { λ fault. Some (rule_fault_text fault) };

    fn fmt<W: fmt::Write>(&self, f: &mut fmt::Formatter<W>) -> fmt::Result {
        match *self {
            RuleFault::Table(fault) => write!(f, "{fault}"),
            RuleFault::Limit => f.write_str("the limit is above 8"),
        }
    }
}

impl Error for RuleFault {}
