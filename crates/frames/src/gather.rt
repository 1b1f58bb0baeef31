ghost use Rattle.std.specs.Prelude.{◌≡◌, ◌<◌, ◌≤◌, length, MatchOption, slice_index};
ghost use Rattle.model.specs.Bytes.{pair_of};
ghost use Rattle.frames.specs.declared.kind.Kind.TheVariants.{Pair as PairKind};
ghost use Rattle.frames.specs.Kinds.{width_of};
ghost use Rattle.frames.specs.Payloads.{of_kind, payload_of, side_bytes, setting_at, setting_of, relation_of};

use crate::frame::{RECORD, records};
use crate::kind::Kind;
use crate::setting::Setting;
use arrayvec::ArrayVec;
use model::group_set::GroupSet;
use model::state::Pair;
use model::value::value_of;
use questions::Side;

/// How many bytes of payloads are kept: as many as the rows of a network have at the most.
pub const ROOM: usize = 1024;

/// Whether a record has this kind and side.
fn is_of(item: &[u8; RECORD], kind: Kind, side: Side) -> bool
    ensures { result ≡ of_kind kind side item.now }
{
    item[0] == u8::from(kind) && item[1] == u8::from(side)
}

fn payload(item: &[u8; RECORD], kind: Kind) -> &[u8]
    ensures bytes { result.now ≡ payload_of kind item.now }
    ensures len { length result.now ≡ width_of kind }
{
    &item[2..2 + kind.width()]
}

/// The byte at a place, or 0 past the end: a setting is read of any input, also of one that is too short.
fn byte_at(bytes: &[u8], i: usize) -> u8
    ensures { result ≡ slice_index bytes.now i }
{
    bytes.get(i).copied().unwrap_or(0)
}

/// The setting in the record that begins at the byte `start`.
fn setting_at(bytes: &[u8], start: usize) -> Setting
    requires { start ≤ 64 }
    ensures { result ≡ setting_at start bytes.now }
{
    Setting {
        lo: value_of(byte_at(bytes, start + 2)),
        hi: value_of(byte_at(bytes, start + 3)),
        free: GroupSet {
            bits: byte_at(bytes, start + 4),
        },
        units: usize::from(byte_at(bytes, start + 5)),
        limit: byte_at(bytes, start + 6),
    }
}

/// The setting of a side.
// Bytes and side stay two arguments: a job has a type for both, and puts the questions of the frames before.
pub fn setting(bytes: &[u8], side: Side) -> Setting
    ensures { result ≡ setting_of side bytes.now }
{
    match side {
        Side::Left => setting_at(bytes, 0),
        Side::Right => setting_at(bytes, RECORD),
    }
}

/// The payloads of a side's records of one kind, one after the other, if there is room for them. The room is fixed, since the
/// questions of the layouts are put before any memory is asked for.
#[tactic(auto, unfolding(crate::specs::Payloads::side_bytes))]
pub fn payload_bytes(bytes: &[u8], kind: Kind, side: Side) -> Option<ArrayVec<u8, ROOM>>
    ensures { MatchOption result (1024 < length (side_bytes kind side bytes.now)) (λ v. v.items ≡ side_bytes kind side bytes.now) }
{
    let mut all = ArrayVec::new();
    for item in records(bytes) {
        if is_of(item, kind, side) {
            all.try_extend_from_slice(payload(item, kind)).ok()?;
        }
    }
    Some(all)
}

fn pair_in(item: &[u8; RECORD]) -> Pair
    ensures { result ≡ pair_of (payload_of PairKind item.now) }
{
    // cannot fail: the payload of a pair has the 48 bytes that a pair has
    Pair::from_bytes(payload(item, Kind::Pair).try_into().unwrap())
}

/// How many pairs an input of framed records has at the most: the longest has 1,024 records, and two of them are settings.
pub const MOST_PAIRS: usize = 1022;

/// The pairs, in the order of the input, if there are at most `MOST` of them.
#[tactic(auto, unfolding(crate::specs::Payloads::relation_of))]
pub fn relation<const MOST: usize>(bytes: &[u8]) -> Option<ArrayVec<Pair, MOST>>
    ensures { MatchOption result (MOST < length (relation_of bytes.now)) (λ v. v.items ≡ relation_of bytes.now) }
{
    let mut pairs = ArrayVec::new();
    for item in records(bytes) {
        if is_of(item, Kind::Pair, Side::Left) {
            pairs.try_push(pair_in(item)).ok()?;
        }
    }
    Some(pairs)
}
