ghost use Rattle.std.specs.Prelude.{◌≡◌, Some};
ghost use Rattle.network.specs.Loads.{network_refusal, network_fault_text};
ghost use Rattle.network.specs.declared.fault.NetworkFault.TheVariants.{Units, Rows};

use model::placement::BadUnitCount;
use questions::Refusal;
use std::error::Error;
use std::fmt;
use tables::TableFault;

/// Why a network is not loaded.
#[derive(Clone, Copy, PartialEq, Eq, Debug)]
pub enum NetworkFault {
    /// There are not 1 to 6 units.
    Units,
    /// The rows are no table of whole rows, at most 64, each as laid out.
    Rows(TableFault),
}

impl NetworkFault {
    /// The refusal with question 5, 6 or 7.
    pub fn refusal(&self) -> Refusal
        ensures { result ≡ network_refusal self.now }
    {
        match self {
            NetworkFault::Units => Refusal::of(5, 0),
            NetworkFault::Rows(fault) => fault.refusal(6, 7),
        }
    }
}

// By hand: what a derive writes has no contract, and the loads say which fault a `?` makes.
impl From<BadUnitCount> for NetworkFault {
    ghost from_gives = { λ _ r. r ≡ Units };

    fn from(_e: BadUnitCount) -> NetworkFault {
        NetworkFault::Units
    }
}

impl From<TableFault> for NetworkFault {
    ghost from_gives = { λ e r. r ≡ Rows e };

    fn from(e: TableFault) -> NetworkFault {
        NetworkFault::Rows(e)
    }
}

impl fmt::Display for NetworkFault {
    ghost output = { λ fault. Some (network_fault_text fault) };

    fn fmt<W: fmt::Write>(&self, f: &mut fmt::Formatter<W>) -> fmt::Result {
        match *self {
            NetworkFault::Units => f.write_str("there are not 1 to 6 units"),
            NetworkFault::Rows(fault) => write!(f, "{fault}"),
        }
    }
}

impl Error for NetworkFault {}
