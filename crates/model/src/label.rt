use crate::group_set::GroupSet;
use crate::value::Value;

/// What is seen of a step.
#[derive(Clone, Copy, PartialEq, Eq, Debug)]
pub enum Label {
    Silent,
    Movement,
    Broadcast { groups: GroupSet, value: Value },
    Receive { groups: GroupSet },
}
