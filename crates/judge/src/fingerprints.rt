use model::state::State;
use model::unit_state::UnitState;
use model::value::byte_of;

fn word(unit: &UnitState) -> u64 {
    u64::from(unit.location)
        | u64::from(byte_of(unit.first)) << 8
        | u64::from(byte_of(unit.second)) << 16
        | u64::from(unit.groups.bits) << 24
}

fn two_words(one: &UnitState, other: &UnitState) -> u64 {
    word(one) | word(other) << 32
}

/// The fingerprint of a state. Equal states have one fingerprint, and others seldom do.
// A bucket is told by the upper half, into which a product brings all that is below.
pub(crate) fn state_fingerprint(state: &State) -> u64 {
    let [a, b, c, d, e, f] = &state.units;
    let mixed = two_words(a, b).wrapping_mul(0x9E37_79B9_7F4A_7C15)
        ^ two_words(c, d)
            .wrapping_mul(0xC2B2_AE3D_27D4_EB4F)
            .rotate_left(21)
        ^ two_words(e, f)
            .wrapping_mul(0x1656_67B1_9E37_79F9)
            .rotate_left(42);
    (mixed ^ mixed >> 32).wrapping_mul(0xD6E8_FEB8_6659_FD93)
}

/// The fingerprint of a pair, by those of its states.
pub(crate) fn pair_fingerprint(left: u64, right: u64) -> u64 {
    (left ^ right.rotate_left(32)).wrapping_mul(0x9E37_79B9_7F4A_7C15)
}
