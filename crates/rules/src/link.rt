ghost use Rattle.std.specs.Prelude.{◌≡◌, ◌++◌, Some, codes, ok_or, slice_set};
ghost use Rattle.std.specs.List.{slice_get};
ghost use Rattle.std.specs.Fmt.{decimal};
ghost use Rattle.rules.specs.LinkRecords.{concerns, kind_of, link_of, met, met_by, met_of};

use model::group_set::GroupSet;
use std::error::Error;
use std::fmt;
use tables::{Layout, TableFault};

/// Whether two units must share a group, or must not.
#[derive(Clone, Copy, PartialEq, Eq, Default, Debug)]
pub enum LinkKind {
    #[default]
    Joined,
    Apart,
}

/// A byte that stands for no kind of link.
#[derive(Clone, Copy, PartialEq, Eq, Debug)]
pub struct NoLinkKind(pub u8);

impl TryFrom<u8> for LinkKind {
    type Error = NoLinkKind;

    ghost try_from_gives = { λ code r. r ≡ ok_or (kind_of code) (record { 0 = code }) };

    fn try_from(code: u8) -> Result<LinkKind, NoLinkKind> {
        match code {
            1 => Ok(LinkKind::Joined),
            2 => Ok(LinkKind::Apart),
            _ => Err(NoLinkKind(code)),
        }
    }
}

impl fmt::Display for NoLinkKind {
    ghost output = { λ e. Some (codes "no kind of link has the byte " ++ decimal e.0) };

    fn fmt<W: fmt::Write>(&self, f: &mut fmt::Formatter<W>) -> fmt::Result {
        write!(f, "no kind of link has the byte {}", self.0)
    }
}

impl Error for NoLinkKind {}

/// The set of a unit, once the changed one is on its set.
fn set_after(sets: &[GroupSet], changed: usize, set: GroupSet, unit: usize) -> Option<GroupSet>
    ensures { result ≡ slice_get (slice_set sets.now changed set) unit }
{
    let before = sets.get(unit)?;
    Some(if unit == changed { set } else { *before })
}

/// A requirement on two units.
#[derive(Clone, Copy, PartialEq, Eq, Default, Debug)]
pub struct Link {
    pub kind: LinkKind,
    pub one: usize,
    pub other: usize,
}

impl Link {
    /// Whether the unit is one of the two.
    pub(crate) fn concerns(&self, unit: usize) -> bool
        ensures { result ≡ concerns unit self.now }
    {
        self.one == unit || self.other == unit
    }

    /// Whether both units are there, on these sets, and share a group or share none as the kind requires.
    fn is_met_by(&self, one: Option<GroupSet>, other: Option<GroupSet>) -> bool
        ensures { result ≡ met_by self.now.kind one other }
    {
        let (Some(one), Some(other)) = (one, other) else {
            return false;
        };
        let shared = one.is_linked(other);
        match self.kind {
            LinkKind::Joined => shared,
            LinkKind::Apart => !shared,
        }
    }

    /// Whether the sets of a placement meet the requirement. One that names a unit past the last is not met.
    pub fn is_met(&self, sets: &[GroupSet]) -> bool
        ensures { result ≡ met sets.now self.now }
    {
        self.is_met_by(sets.get(self.one).copied(), sets.get(self.other).copied())
    }

    /// The same with the unit on the set, if the requirement concerns the unit.
    // No placement is made for it: this is asked for each set that a unit may change to.
    pub(crate) fn is_met_after(&self, sets: &[GroupSet], unit: usize, set: GroupSet) -> bool
        ensures { result ≡ met_of unit (slice_set sets.now unit set) self.now }
    {
        if !self.concerns(unit) {
            return true;
        }
        self.is_met_by(
            set_after(sets, unit, set, self.one),
            set_after(sets, unit, set, self.other),
        )
    }
}

/// The most records of links.
pub const MOST_LINKS: usize = 16;

/// Three bytes: kind (1 joined, 2 apart), then two units 0 to 5. At most `MOST_LINKS` of them.
#[derive(Clone, Copy, Debug)]
pub struct LinkLayout;

impl Layout<Link, MOST_LINKS> for LinkLayout {
    ghost width = { λ _. 3 };

    ghost parse = { λ _. link_of };

    fn width(&self) -> usize {
        3
    }

    fn read(&self, number: usize, bytes: &[u8]) -> Result<Link, TableFault> {
        let fault = TableFault::Record { number };
        let [kind, one, other] = bytes else {
            return Err(fault);
        };
        if *one > 5 || *other > 5 {
            return Err(fault);
        }
        Ok(Link {
            kind: LinkKind::try_from(*kind).ok().ok_or(fault)?,
            one: usize::from(*one),
            other: usize::from(*other),
        })
    }
}
