use crate::fault::SheetFault;
use crate::sheet::Sheet;
use crate::states::state_at;
use model::group_set::GroupSet;
use model::label::Label;
use model::range::Range;
use model::state::State;
use model::value::Value;
use std::test::Fail;
use systems::System;
use tables::TableFault;

const CHANNELS: GroupSet = GroupSet { bits: 1 };

/// Three receives from the state 0, and a broadcast of -2 from the state 1.
const ROWS: [u8; 24] = [
    0, 3, 1, 0, 1, 1, 0, 3, 1, 0, 2, 2, 0, 3, 1, 0, 1, 2, 1, 2, 1, 0xFE, 2, 2,
];

/// The same without the third row.
const FEWER: [u8; 18] = [0, 3, 1, 0, 1, 1, 0, 3, 1, 0, 2, 2, 1, 2, 1, 0xFE, 2, 2];

fn has_label(sheet: &Sheet, from: u8, step: u64, expected: Label) -> bool {
    sheet.label(&state_at(from), step) == Some(expected)
}

fn lands(sheet: &Sheet, from: u8, step: u64, value: Value, to: u8) -> bool {
    sheet.landing(&state_at(from), step, value) == Some(state_at(to))
}

#[test]
fn three_receives(rt: HostRuntime) -> Result<(), Fail> {
    let sheet = Sheet::load(Range::new(-2, 2)?, CHANNELS, &ROWS)?;
    assert_eq!(rt; sheet.step_count(&state_at(0)), 3);
    for step in 0..3 {
        assert!(rt; has_label(&sheet, 0, step, Label::Receive { groups: CHANNELS }));
    }
    Ok(())
}

#[test]
fn three_receives_land(rt: HostRuntime) -> Result<(), Fail> {
    let sheet = Sheet::load(Range::new(-2, 2)?, CHANNELS, &ROWS)?;
    for value in -2..3 {
        assert!(rt; lands(&sheet, 0, 0, value, 1));
        assert!(rt; lands(&sheet, 0, 1, value, 2));
        assert!(rt; lands(&sheet, 0, 2, value, if value == 0 { 1 } else { 2 }));
    }
    assert!(rt; sheet.landing(&state_at(0), 0, 3).is_none());
    assert!(rt; sheet.landing(&state_at(0), 3, 0).is_none());
    let mut steps = Vec::new(rt.alloc());
    sheet.list(&state_at(0), 0, &mut steps)?;
    assert_eq!(rt; steps.len(), 3);
    let mut receives = Vec::new(rt.alloc());
    sheet.receives(&state_at(0), &mut receives)?;
    assert_eq!(rt; receives.len(), 3);
    Ok(())
}

#[test]
fn other_states(rt: HostRuntime) -> Result<(), Fail> {
    let sheet = Sheet::load(Range::new(-2, 2)?, CHANNELS, &FEWER)?;
    assert_eq!(rt; sheet.step_count(&state_at(0)), 2);
    assert_eq!(rt; sheet.step_count(&state_at(1)), 1);
    assert!(rt;
        has_label(
            &sheet,
            1,
            0,
            Label::Broadcast {
                groups: CHANNELS,
                value: -2,
            },
        )
    );
    assert!(rt; lands(&sheet, 1, 0, 2, 2));
    assert_eq!(rt; sheet.step_count(&state_at(2)), 0);
    assert_eq!(rt; sheet.shown(&state_at(2)).bits, 1);
    let mut bytes = [0; 24];
    bytes[23] = 1;
    let unlawful = State::from_bytes(bytes);
    assert!(rt; !sheet.is_lawful(&unlawful));
    assert_eq!(rt; sheet.step_count(&unlawful), 0);
    assert_eq!(rt; sheet.shown(&unlawful).bits, 0);
    Ok(())
}

/// What a sheet is refused for, over the range 1 to 2 and the channel set {0}.
fn fault(bytes: &[u8]) -> Result<Option<SheetFault>, Fail> {
    Ok(Sheet::load(Range::new(1, 2)?, CHANNELS, bytes).err())
}

const LAID_OUT: [[u8; 6]; 4] = [
    [9, 0, 0, 0, 8, 8],
    [9, 1, 0, 0, 255, 255],
    [9, 2, 1, 2, 8, 8],
    [9, 3, 1, 1, 8, 7],
];

/// A kind that is none; a set, a value or another target that the kind has not; a set outside the channel set and an empty
/// one; a value below the range and one above it.
const NOT_LAID_OUT: [[u8; 6]; 9] = [
    [9, 4, 0, 0, 8, 8],
    [9, 0, 1, 0, 8, 8],
    [9, 1, 0, 1, 8, 8],
    [9, 1, 0, 0, 8, 7],
    [9, 2, 1, 1, 8, 7],
    [9, 2, 3, 1, 8, 8],
    [9, 2, 0, 1, 8, 8],
    [9, 3, 1, 0, 8, 8],
    [9, 3, 1, 3, 8, 8],
];

#[test]
fn rows_as_laid_out(rt: HostRuntime) -> Result<(), Fail> {
    for row in &LAID_OUT {
        assert_eq!(rt; fault(row)?, None);
    }
    Ok(())
}

#[test]
fn rows_not_as_laid_out(rt: HostRuntime) -> Result<(), Fail> {
    for row in &NOT_LAID_OUT {
        assert_eq!(rt;
            fault(row)?,
            Some(SheetFault(TableFault::Record { number: 0 }))
        );
    }
    Ok(())
}

#[test]
fn rows_counted(rt: HostRuntime) -> Result<(), Fail> {
    assert_eq!(rt; fault(&[])?, None);
    assert_eq!(rt; fault(&[0; 768])?, None);
    assert_eq!(rt; fault(&[0; 774])?, Some(SheetFault(TableFault::Count)));
    assert_eq!(rt; fault(&[0; 5])?, Some(SheetFault(TableFault::Count)));
    let mut rows = [0; 12];
    rows[7] = 9;
    assert_eq!(rt;
        fault(&rows)?,
        Some(SheetFault(TableFault::Record { number: 1 }))
    );
    Ok(())
}

#[test]
fn faults_in_words(rt: HostRuntime) -> Result<(), Fail> {
    let count = SheetFault(TableFault::Count);
    let record = SheetFault(TableFault::Record { number: 3 });
    assert_eq!(rt;
        format!(in rt.alloc(); "{count}; {record}")?.as_str(),
        "the bytes are no whole records, or too many; record 3 is not as laid out"
    );
    Ok(())
}
