use model::group_set::GroupSet;
use model::unit_state::UNITS;

/// What a unit does while another one broadcasts: it stays as it is, or takes a row to receive.
// The calculus has these two names for what a listener does; `None` and `Some(row)` would say less.
#[derive(Clone, Copy)]
pub enum Choice {
    Stay,
    Take { row: usize },
}

/// How a step comes about: a unit changes to another set, or it takes a row and the other units do as they choose.
#[derive(Clone, Copy)]
pub enum Way {
    Move {
        unit: usize,
        set: GroupSet,
    },
    Act {
        unit: usize,
        row: usize,
        choices: [Choice; UNITS],
    },
}
