ghost use Rattle.std.specs.Prelude.{ℕ, ◌+◌};
ghost use Rattle.std.specs.List.{slice_get};

use crate::{Layout, TableFault, load};
use std::test::Fail;

/// Records of one byte, with so many bytes behind it that stand for nothing.
#[derive(Clone, Copy)]
struct Spaced {
    gap: u8,
}

impl Layout<u8, 2> for Spaced {
    ghost width = { λ x. x.gap + 1 };

    ghost parse = { λ _ bytes. slice_get bytes 0 };

    fn width(&self) -> usize {
        usize::from(self.gap) + 1
    }

    fn read(&self, number: usize, bytes: &[u8]) -> Result<u8, TableFault> {
        bytes.first().copied().ok_or(TableFault::Record { number })
    }
}

/// The records in the bytes, with so many bytes between them.
fn records(gap: u8, bytes: &[u8]) -> Result<[u8; 2], TableFault> {
    let table = load(&Spaced { gap }, bytes)?;
    let mut records = [0; 2];
    for (place, record) in records.iter_mut().zip(table.as_slice()) {
        *place = *record;
    }
    Ok(records)
}

#[test]
fn a_width_that_is_known_only_when_the_program_runs(rt: HostRuntime) {
    assert_eq!(rt; records(0, &[7, 8]), Ok([7, 8]));
    assert_eq!(rt; records(2, &[7, 1, 1, 8, 1, 1]), Ok([7, 8]));
    assert_eq!(rt; records(2, &[7, 1, 1, 8]), Err(TableFault::Count));
    assert_eq!(rt; records(0, &[7, 8, 9]), Err(TableFault::Count));
}
