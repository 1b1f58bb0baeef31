ghost use Rattle.std.specs.Prelude.{◌≡◌};
ghost use Rattle.rules.specs.Places.{place_of};
ghost use Rattle.std.proofs.Common.{rules};

use lookup::Exact;
use model::group_set::GroupSet;
use tables::{Layout, TableFault};

/// A parking record: this unit may sit on this set.
#[derive(Clone, Copy, PartialEq, Eq, Default, Debug)]
pub struct Place {
    pub unit: usize,
    pub set: GroupSet,
}

impl Exact for Place {
    ghost exact = { Prim.search rules };
}

/// The most records of parkings.
pub const MOST_PLACES: usize = 48;

/// Two bytes: unit 0 to 5, set. At most `MOST_PLACES` of them.
#[derive(Clone, Copy, Debug)]
pub struct PlaceLayout;

impl Layout<Place, MOST_PLACES> for PlaceLayout {
    ghost width = { λ _. 2 };

    ghost parse = { λ _. place_of };

    fn width(&self) -> usize {
        2
    }

    fn read(&self, number: usize, bytes: &[u8]) -> Result<Place, TableFault> {
        match bytes {
            [unit, set] if *unit <= 5 => Ok(Place {
                unit: usize::from(*unit),
                set: GroupSet { bits: *set },
            }),
            _ => Err(TableFault::Record { number }),
        }
    }
}
