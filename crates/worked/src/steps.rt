ghost use Rattle.std.specs.Prelude.{◌≡◌};
ghost use Rattle.model.specs.declared.label.Label.TheVariants.{Movement};
ghost use Rattle.worked.specs.Entries.{unit, one, two};
ghost use Rattle.worked.specs.Examples.{zero, broadcast_on_a_free_group, movements_keep_the_free_part, hidden_broadcast_is_silent, broadcast_is_lost_or_heard, unlinked_unit_cannot_hear, fe_is_less_than_0, byte_0_is_not, byte_2_is_not};
ghost use Rattle.worked.specs.Coded.{always, entry_of};

use crate::bytes::{GUARDED, ROWS};
use crate::example::{Example, Landing, Source, Step, held};
use crate::states::{one, s0, s1, two, unit, with_byte};
use model::group_set::GroupSet;
use model::label::Label;
use model::state::State;

const FREE: GroupSet = GroupSet { bits: 1 };

const SENT: Label = Label::Broadcast {
    groups: FREE,
    value: -2,
};

/// A step that lands in this state at every value.
fn leads(label: Label, state: State) -> Step
    ensures { result ≡ always label state }
{
    Step {
        label,
        landing: Landing::Always(state),
    }
}

/// The movement of a unit at location 0 to the set with this number.
fn moves(set: u8) -> Step
    ensures { result ≡ always Movement (one (unit 0 zero zero set)) }
{
    leads(Label::Movement, one(unit(0, 0, set)))
}

/// The same of a unit at location 2, beside one that is to send.
fn other_moves(set: u8) -> Step
    ensures { result ≡ always Movement (two (unit 0 zero zero 1) (unit 2 zero zero set)) }
{
    leads(Label::Movement, two(unit(0, 0, 1), unit(2, 0, set)))
}

pub(crate) fn broadcast_on_a_free_group() -> Example
    ensures { entry_of result ≡ broadcast_on_a_free_group }
{
    Example::Steps {
        of: Source::Network {
            units: 1,
            limit: 1,
            rows: &ROWS,
        },
        state: s0(),
        steps: held(&[leads(SENT, s1())]),
    }
}

pub(crate) fn movements_keep_the_free_part() -> Example
    ensures { entry_of result ≡ movements_keep_the_free_part }
{
    let steps = [
        moves(3),
        moves(5),
        moves(9),
        moves(17),
        moves(33),
        moves(65),
        moves(129),
        leads(SENT, s1()),
    ];
    Example::Steps {
        of: Source::Network {
            units: 1,
            limit: 2,
            rows: &ROWS,
        },
        state: s0(),
        steps: held(&steps),
    }
}

pub(crate) fn hidden_broadcast_is_silent() -> Example
    ensures { entry_of result ≡ hidden_broadcast_is_silent }
{
    let steps = [
        moves(0),
        moves(4),
        moves(8),
        moves(16),
        moves(32),
        moves(64),
        moves(128),
        leads(Label::Silent, one(unit(1, 0, 2))),
    ];
    Example::Steps {
        of: Source::Network {
            units: 1,
            limit: 1,
            rows: &ROWS,
        },
        state: one(unit(0, 0, 2)),
        steps: held(&steps),
    }
}

pub(crate) fn broadcast_is_lost_or_heard() -> Example
    ensures { entry_of result ≡ broadcast_is_lost_or_heard }
{
    let sender = unit(0, 0, 1);
    let listener = unit(2, 0, 1);
    let sent = unit(1, 0, 1);
    let received = Step {
        label: Label::Receive { groups: FREE },
        landing: Landing::ByValue {
            one: sender,
            other: unit(3, 0, 1),
        },
    };
    let steps = [
        leads(SENT, two(sent, listener)),
        leads(SENT, two(sent, unit(3, -2, 1))),
        received,
    ];
    Example::Steps {
        of: Source::Network {
            units: 2,
            limit: 1,
            rows: &ROWS,
        },
        state: two(sender, listener),
        steps: held(&steps),
    }
}

pub(crate) fn unlinked_unit_cannot_hear() -> Example
    ensures { entry_of result ≡ unlinked_unit_cannot_hear }
{
    let unlinked = unit(2, 0, 2);
    let steps = [
        other_moves(0),
        other_moves(4),
        other_moves(8),
        other_moves(16),
        other_moves(32),
        other_moves(64),
        other_moves(128),
        leads(SENT, two(unit(1, 0, 1), unlinked)),
    ];
    Example::Steps {
        of: Source::Network {
            units: 2,
            limit: 1,
            rows: &ROWS,
        },
        state: two(unit(0, 0, 1), unlinked),
        steps: held(&steps),
    }
}

const UNDER_GUARD: Source = Source::Network {
    units: 1,
    limit: 1,
    rows: &GUARDED,
};

pub(crate) fn fe_is_less_than_0() -> Example
    ensures { entry_of result ≡ fe_is_less_than_0 }
{
    Example::Steps {
        of: UNDER_GUARD,
        state: with_byte(0xFE),
        steps: held(&[leads(Label::Silent, one(unit(1, -2, 1)))]),
    }
}

pub(crate) fn byte_0_is_not() -> Example
    ensures { entry_of result ≡ byte_0_is_not }
{
    Example::Steps {
        of: UNDER_GUARD,
        state: with_byte(0x00),
        steps: held(&[]),
    }
}

pub(crate) fn byte_2_is_not() -> Example
    ensures { entry_of result ≡ byte_2_is_not }
{
    Example::Steps {
        of: UNDER_GUARD,
        state: with_byte(0x02),
        steps: held(&[]),
    }
}
