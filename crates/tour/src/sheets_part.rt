use crate::steps_part::show_steps;
use model::group_set::GroupSet;
use model::range::Range;
use sheet::sheet::Sheet;
use sheet::states::state_at;

/// The first row receives and lands in 1 for every value, the second in 2, the third in 1 for 0 and in 2 for the others; the
/// fourth broadcasts -2 from 1.
pub const FOUR_ROWS: [u8; 24] = [
    0, 3, 1, 0, 1, 1, 0, 3, 1, 0, 2, 2, 0, 3, 1, 0, 1, 2, 1, 2, 1, 0xFE, 2, 2,
];

/// The same without the third row.
pub const THREE_ROWS: [u8; 18] = [0, 3, 1, 0, 1, 1, 0, 3, 1, 0, 2, 2, 1, 2, 1, 0xFE, 2, 2];

/// The sheet of these rows, over the range -2 to 2 and the channel set {0}.
pub fn worked_sheet(rows: &[u8]) -> anyhow::Result<Sheet> {
    let range = Range::new(-2, 2)?;
    Ok(Sheet::load(range, GroupSet { bits: 1 }, rows)?)
}

pub fn show_sheets(rt: &HostRuntime) -> anyhow::Result<()> {
    let sheet = worked_sheet(&FOUR_ROWS)?;
    for number in 0..3u8 {
        show_steps(rt, &sheet, &state_at(number), 1)?;
    }
    Ok(())
}
