/// At location 0 broadcast -2, to 1; at location 2 receive into the first register, to 3. Both keep the registers.
pub(crate) const ROWS: [u8; 32] = [
    0, 0, 0, 0, 0, 0, 1, 2, 0xFE, 1, 0, 0, 1, 0, 0, 0, 2, 0, 0, 0, 0, 0, 2, 0, 0, 3, 0, 0, 1, 0, 0,
    0,
];

/// At location 0, if the first register is less than 0, silently to 1. It keeps the registers.
pub(crate) const GUARDED: [u8; 16] = [0, 3, 0, 0, 2, 0, 0, 0, 0, 1, 0, 0, 1, 0, 0, 0];

/// Rows of a sheet: two receives that land in 1 and in 2 for every value, one that lands in 1 for 0 and in 2 for the others,
/// and a broadcast of -2 from 1.
pub(crate) const FOUR_ROWS: [u8; 24] = [
    0, 3, 1, 0, 1, 1, 0, 3, 1, 0, 2, 2, 0, 3, 1, 0, 1, 2, 1, 2, 1, 0xFE, 2, 2,
];

/// The same without the receive that lands by the value.
pub(crate) const THREE_ROWS: [u8; 18] = [0, 3, 1, 0, 1, 1, 0, 3, 1, 0, 2, 2, 1, 2, 1, 0xFE, 2, 2];
