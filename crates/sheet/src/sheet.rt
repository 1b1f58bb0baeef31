use crate::layout::MOST_ROWS;
use crate::row::Row;
use arrayvec::ArrayVec;
use model::group_set::GroupSet;
use model::range::Range;

/// A service sheet: a range, the channel set that every lawful state shows, and the rows, which are its steps.
#[derive(Drop)]
pub struct Sheet {
    pub(crate) range: Range,
    pub(crate) channels: GroupSet,
    pub(crate) rows: ArrayVec<Row, MOST_ROWS>,
}
