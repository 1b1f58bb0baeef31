ghost use Rattle.std.specs.Prelude.{◌≡◌, ◌+◌, ◌*◌, ◌≤◌, length, take, drop};
ghost use Rattle.model.specs.Bytes.{unit_of, unit_bytes, state_of, state_bytes, pair_of, pair_bytes};

use crate::group_set::GroupSet;
use crate::state::{Pair, State};
use crate::unit_state::UnitState;
use crate::value::{byte_of, value_of};
use std::array::from_fn;

// The conversions have names, as `from_le_bytes` has, since they speak of the layout's bytes.
impl UnitState {
    /// The unit state in four bytes: location, first register, second register, group set.
    pub fn from_bytes(bytes: [u8; 4]) -> UnitState
        ensures is { result ≡ unit_of bytes }
        ensures back { unit_bytes result ≡ bytes }
    {
        UnitState {
            location: bytes[0],
            first: value_of(bytes[1]),
            second: value_of(bytes[2]),
            groups: GroupSet { bits: bytes[3] },
        }
    }

    pub fn to_bytes(&self) -> [u8; 4]
        ensures is { result ≡ unit_bytes self.now }
        ensures back { unit_of result ≡ self.now }
    {
        [
            self.location,
            byte_of(self.first),
            byte_of(self.second),
            self.groups.bits,
        ]
    }
}

/// The unit with the number `k` among those whose bytes stand one after the other.
// Where a unit stands among the bytes is the layout, so it is said by the number of its first byte.
fn read_unit(bytes: &[u8], k: usize) -> UnitState
    requires { 4 * k + 4 ≤ length bytes.now }
    ensures is { result ≡ unit_of (take 4 (drop (4 * k) bytes.now)) }
    ensures back { unit_bytes result ≡ take 4 (drop (4 * k) bytes.now) }
{
    let at = 4 * k;
    UnitState::from_bytes([bytes[at], bytes[at + 1], bytes[at + 2], bytes[at + 3]])
}

/// The state in 24 bytes.
fn read_state(bytes: &[u8]) -> State
    requires { length bytes.now ≡ 24 }
    ensures is { result ≡ state_of bytes.now }
    ensures back { state_bytes result ≡ bytes.now }
{
    State {
        units: from_fn(|k| read_unit(bytes, k)),
    }
}

impl State {
    /// The state in 24 bytes: six unit states.
    pub fn from_bytes(bytes: [u8; 24]) -> State
        ensures is { result ≡ state_of bytes }
        ensures back { state_bytes result ≡ bytes }
    {
        read_state(&bytes)
    }

    pub fn to_bytes(&self) -> [u8; 24]
        ensures is { result ≡ state_bytes self.now }
        ensures back { state_of result ≡ self.now }
    {
        let mut bytes = [0; 24];
        for (k, unit) in self.units.iter().enumerate() {
            let at = 4 * k;
            bytes[at..at + 4].copy_from_slice(&unit.to_bytes());
        }
        bytes
    }
}

impl Pair {
    /// The pair in 48 bytes: the left state, then the right one.
    pub fn from_bytes(bytes: [u8; 48]) -> Pair
        ensures is { result ≡ pair_of bytes }
        ensures back { pair_bytes result ≡ bytes }
    {
        Pair {
            left: read_state(&bytes[0..24]),
            right: read_state(&bytes[24..48]),
        }
    }

    pub fn to_bytes(&self) -> [u8; 48]
        ensures is { result ≡ pair_bytes self.now }
        ensures back { pair_of result ≡ self.now }
    {
        let mut bytes = [0; 48];
        bytes[0..24].copy_from_slice(&self.left.to_bytes());
        bytes[24..48].copy_from_slice(&self.right.to_bytes());
        bytes
    }
}
