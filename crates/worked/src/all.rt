ghost use Rattle.std.specs.Prelude.{◌≡◌, map};
ghost use Rattle.worked.specs.Examples.{table};
ghost use Rattle.worked.specs.Coded.{entry_of};

use crate::example::Example;
use crate::steps::{
    broadcast_is_lost_or_heard, broadcast_on_a_free_group, byte_0_is_not, byte_2_is_not,
    fe_is_less_than_0, hidden_broadcast_is_silent, movements_keep_the_free_part,
    unlinked_unit_cannot_hear,
};
use crate::verdicts::{
    left_step_has_no_reply, relation_is_accepted, reply_comes_before_the_value,
    right_step_has_no_reply, sets_shown_differ,
};

/// The table.
pub fn table() -> [Example; 13]
    ensures { map entry_of result ≡ table }
{
    [
        broadcast_on_a_free_group(),
        movements_keep_the_free_part(),
        hidden_broadcast_is_silent(),
        broadcast_is_lost_or_heard(),
        unlinked_unit_cannot_hear(),
        relation_is_accepted(),
        left_step_has_no_reply(),
        right_step_has_no_reply(),
        sets_shown_differ(),
        reply_comes_before_the_value(),
        fe_is_less_than_0(),
        byte_0_is_not(),
        byte_2_is_not(),
    ]
}
