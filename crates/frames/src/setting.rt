use model::group_set::GroupSet;
use model::value::Value;

/// A side's setting, as it stands in the input: its range and its rule are not yet held to their questions.
#[derive(Clone, Copy, PartialEq, Eq, Debug)]
pub struct Setting {
    pub lo: Value,
    pub hi: Value,
    pub free: GroupSet,
    pub units: usize,
    pub limit: u8,
}
