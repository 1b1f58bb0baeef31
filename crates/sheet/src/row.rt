use model::group_set::GroupSet;
use model::value::Value;

/// What a row does, with what goes with it. A receive lands in the row's `to` for its value, and in `other` for the rest.
#[derive(Clone, Copy, Default, Debug)]
pub enum Kind {
    #[default]
    Silent,
    Movement,
    Broadcast {
        groups: GroupSet,
        value: Value,
    },
    Receive {
        groups: GroupSet,
        value: Value,
        other: u8,
    },
}

/// A row is a step from the state with the number `from` to the one with the number `to`.
#[derive(Clone, Copy, Default, Debug)]
pub struct Row {
    pub from: u8,
    pub kind: Kind,
    pub to: u8,
}
