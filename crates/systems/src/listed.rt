ghost use Rattle.std.specs.Prelude.{◌≡◌, ◌<◌, ◌≤◌, ◌++◌, ◌∷◌, [], IsOk, OnOk, OnErr, vec_len, vec_capacity};

use model::label::Label;
use model::state::State;
use std::alloc::AllocError;

/// The most steps that are held in a list.
pub const MOST_LISTED: usize = 65536;

/// A step as it is listed: its label, and its landing at the value that was asked for, or none where that value is out of
/// range.
#[derive(Clone, Copy, Debug)]
pub struct Listed {
    pub label: Label,
    pub landing: Option<State>,
}

/// Adds a step to a list. A list that would get longer than `MOST_LISTED` counts as want of memory. Where memory is wanting, the
/// list stays as it was.
pub fn add_listed(steps: &mut Vec<Listed>, step: Listed) -> Result<(), AllocError>
    ensures adds { OnOk result (steps.new.items ≡ steps.old.items ++ step ∷ []) }
    ensures few { OnOk result (vec_len steps.new ≤ 65536) }
    ensures leaves { OnErr result (steps.new.items ≡ steps.old.items) }
    ensures grows { vec_capacity steps.old ≤ vec_capacity steps.new }
    ensures room { vec_len steps.old < 65536 → vec_len steps.old < vec_capacity steps.old → IsOk result }
{
    if steps.len() >= MOST_LISTED {
        return Err(AllocError);
    }
    steps.push(step)?;
    Ok(())
}
