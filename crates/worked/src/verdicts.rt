ghost use Rattle.std.specs.Prelude.{◌≡◌};
ghost use Rattle.worked.specs.Examples.{relation_is_accepted, left_step_has_no_reply, right_step_has_no_reply, sets_shown_differ, reply_comes_before_the_value};
ghost use Rattle.worked.specs.Coded.{entry_of};

use crate::bytes::{FOUR_ROWS, ROWS, THREE_ROWS};
use crate::example::{Example, Source, held};
use crate::states::{one, pair, s0, s1, unit};
use questions::{Refusal, Side};
use sheet::states::state_at;

/// The system on both sides.
const ALIKE: Source = Source::Network {
    units: 1,
    limit: 1,
    rows: &ROWS,
};

pub(crate) fn relation_is_accepted() -> Example
    ensures { entry_of result ≡ relation_is_accepted }
{
    Example::Verdict {
        left: ALIKE,
        right: ALIKE,
        relation: held(&[pair(s0(), s0()), pair(s1(), s1())]),
        verdict: Ok(2),
    }
}

pub(crate) fn left_step_has_no_reply() -> Example
    ensures { entry_of result ≡ left_step_has_no_reply }
{
    Example::Verdict {
        left: ALIKE,
        right: ALIKE,
        relation: held(&[pair(s0(), s0())]),
        verdict: Err(Refusal {
            question: 15,
            side: Side::Left,
            item: 0,
            step: 0,
        }),
    }
}

pub(crate) fn right_step_has_no_reply() -> Example
    ensures { entry_of result ≡ right_step_has_no_reply }
{
    Example::Verdict {
        left: ALIKE,
        right: ALIKE,
        relation: held(&[pair(s1(), s0())]),
        verdict: Err(Refusal {
            question: 16,
            side: Side::Right,
            item: 0,
            step: 0,
        }),
    }
}

pub(crate) fn sets_shown_differ() -> Example
    ensures { entry_of result ≡ sets_shown_differ }
{
    Example::Verdict {
        left: ALIKE,
        right: ALIKE,
        relation: held(&[pair(s1(), one(unit(1, 0, 2)))]),
        verdict: Err(Refusal {
            question: 14,
            side: Side::Left,
            item: 0,
            step: 0,
        }),
    }
}

pub(crate) fn reply_comes_before_the_value() -> Example
    ensures { entry_of result ≡ reply_comes_before_the_value }
{
    let relation = [
        pair(state_at(0), state_at(0)),
        pair(state_at(1), state_at(1)),
        pair(state_at(2), state_at(2)),
    ];
    Example::Verdict {
        left: Source::Sheet { rows: &FOUR_ROWS },
        right: Source::Sheet { rows: &THREE_ROWS },
        relation: held(&relation),
        verdict: Err(Refusal {
            question: 15,
            side: Side::Left,
            item: 0,
            step: 2,
        }),
    }
}
