ghost use Rattle.std.specs.Prelude.{◌≡◌};
ghost use Rattle.sheet.specs.Rows.{carried, kind_of, parse_row};

use crate::row::{Kind, Row};
use model::group_set::GroupSet;
use model::range::Range;
use model::value::{Value, value_of};
use tables::{Layout, TableFault};

/// The most rows of a sheet.
pub(crate) const MOST_ROWS: usize = 128;

/// How a sheet's rows are laid out, over its range and its channel set.
#[derive(Clone, Copy)]
pub(crate) struct RowLayout {
    pub(crate) range: Range,
    pub(crate) channels: GroupSet,
}

impl RowLayout {
    /// Whether a row may carry the set and the value.
    fn may_carry(&self, groups: GroupSet, value: Value) -> bool
        ensures { result ≡ carried self.now.range.lo self.now.range.hi self.now.channels groups value }
    {
        !groups.is_empty() && groups.part_within(self.channels) == groups && self.range.holds(value)
    }

    /// What a row does, from its bytes for kind, set, value, to and other. The kind is a byte here, since this reads the
    /// layout; the enum is what it answers.
    fn kind(&self, code: u8, set: u8, value: u8, to: u8, other: u8) -> Option<Kind>
        ensures { result ≡ kind_of self.now.range.lo self.now.range.hi self.now.channels code set value to other }
    {
        let is_bare = set == 0 && value == 0;
        let groups = GroupSet { bits: set };
        let value = value_of(value);
        match code {
            0 if is_bare && other == to => Some(Kind::Silent),
            1 if is_bare && other == to => Some(Kind::Movement),
            2 if self.may_carry(groups, value) && other == to => {
                Some(Kind::Broadcast { groups, value })
            }
            3 if self.may_carry(groups, value) => {
                Some(Kind::Receive {
                    groups,
                    value,
                    other,
                })
            }
            _ => None,
        }
    }
}

impl Layout<Row, MOST_ROWS> for RowLayout {
    ghost width = { λ _. 6 };

    ghost parse = { λ x. parse_row x.range.lo x.range.hi x.channels };

    fn width(&self) -> usize {
        // from, kind, set, value, to, other
        6
    }

    fn read(&self, number: usize, bytes: &[u8]) -> Result<Row, TableFault> {
        let fault = TableFault::Record { number };
        let [from, code, set, value, to, other] = bytes else {
            return Err(fault);
        };
        Ok(Row {
            from: *from,
            kind: self.kind(*code, *set, *value, *to, *other).ok_or(fault)?,
            to: *to,
        })
    }
}
