ghost use Rattle.std.specs.Prelude.{◌≡◌, ◌<◌, ◌≤◌, ◌++◌, map, drop, OnOk, OnErr, vec_len, slice_range};
ghost use Rattle.lists.specs.Words.{Extends};
ghost use Rattle.std.specs.List.{range_with_len, flat_map};
ghost use Rattle.lists.specs.Products.{product};
ghost use Rattle.ways.specs.Nets.{net_of, unit_at};
ghost use Rattle.ways.specs.Ways.{choices, all_stay};
ghost use Rattle.ways.specs.Landings.{chosen, listed_of};
ghost use Rattle.ways.specs.Copies.{placing};
ghost use Rattle.ways.specs.declared.way.Way.TheVariants.{Act};

use crate::landing::incoming;
use crate::slots::unit_at;
use crate::table::Table;
use model::state::State;
use model::unit_state::{UNITS, UnitState};
use model::value::Value;
use std::alloc::AllocError;
use systems::listed::{Listed, add_listed};

/// The step that lands with this unit in the slot.
fn placing(listed: Listed, slot: usize, unit: UnitState) -> Listed
    ensures { result ≡ placing slot unit listed }
{
    let label = listed.label;
    let landing = match listed.landing {
        Some(landing) => Some(landing.with(slot, unit)),
        None => None,
    };
    Listed { label, landing }
}

/// Adds the steps with the numbers from `from` to `to` once more, landing with this unit in the slot.
fn add_copies(
    steps: &mut Vec<Listed>,
    from: usize,
    to: usize,
    slot: usize,
    unit: UnitState,
) -> Result<(), AllocError>
    requires in_order { from ≤ to }
    requires there { to ≤ vec_len steps.old }
    ensures adds { OnOk result (steps.new.items ≡ steps.old.items ++ map (placing slot unit) (slice_range steps.old.items from to)) }
    ensures begins { OnErr result (Extends steps.old.items steps.new.items) }
{
    for number in from..to {
        let step = placing(steps[number], slot, unit);
        add_listed(steps, step)?;
    }
    Ok(())
}

// A combination is not worked out from its number: where a slot can choose otherwise, what is listed of the later slots
// is copied for each such choice.
impl Table {
    /// Adds the steps from `from` on once more for each choice of the slot but the one to stay, as it receives what is sent.
    fn add_chosen(
        &self,
        state: &State,
        sender: usize,
        slot: usize,
        sent: Value,
        from: usize,
        steps: &mut Vec<Listed>,
    ) -> Result<(), AllocError>
        requires there { from ≤ vec_len steps.old }
        ensures adds { OnOk result (steps.new.items ≡ steps.old.items ++ flat_map (λ c. map (placing slot (chosen (net_of self.now) (unit_at state.now slot) c sent)) (drop from steps.old.items)) (drop 1 (choices (net_of self.now) state.now sender slot))) }
        ensures begins { OnErr result (Extends steps.old.items steps.new.items) }
    {
        if !self.is_listener(state, sender, slot) {
            return Ok(());
        }
        let to = steps.len();
        let before = unit_at(state, slot);
        for row in 0..self.program.rows().len() {
            let taken = self.row(row);
            if taken.is_receivable(&before) {
                let after = taken.taken_by(&before, sent);
                add_copies(steps, from, to, slot, after)?;
            }
        }
        Ok(())
    }

    /// The step in which the unit takes the row and the others stay, as it is listed at the value.
    pub(crate) fn listed_alone(
        &self,
        state: &State,
        unit: usize,
        row: usize,
        value: Value,
    ) -> Listed
        ensures { result ≡ listed_of (net_of self.now) state.now value (Act unit row all_stay) }
    {
        let is_in_range = self.program.range().holds(value);
        Listed {
            label: self.act_label(&unit_at(state, unit), self.row(row).action),
            landing: is_in_range.then(|| self.taken_alone(state, unit, row, value)),
        }
    }

    /// Adds the steps in which the sender takes a row to broadcast, with all combinations of choices, as they are listed at
    /// the value.
    pub(crate) fn add_combinations(
        &self,
        state: &State,
        sender: usize,
        row: usize,
        value: Value,
        steps: &mut Vec<Listed>,
    ) -> Result<(), AllocError>
        ensures adds { OnOk result (steps.new.items ≡ steps.old.items ++ map (listed_of (net_of self.now) state.now value) (map (Act sender row) (product (map (choices (net_of self.now) state.now sender) (range_with_len 0 6))))) }
        ensures begins { OnErr result (Extends steps.old.items steps.new.items) }
    {
        let from = steps.len();
        let sent = incoming(&unit_at(state, sender), self.row(row).action, value);
        add_listed(steps, self.listed_alone(state, sender, row, value))?;
        for slot in (0..UNITS).rev() {
            self.add_chosen(state, sender, slot, sent, from, steps)?;
        }
        Ok(())
    }
}
