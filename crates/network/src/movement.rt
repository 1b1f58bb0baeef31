ghost use Rattle.std.specs.Prelude.{◌≡◌, ◌*◌, ◌≤◌, ◌<◌, ◌++◌, true, map, length, filter, OnOk, OnErr};
ghost use Rattle.std.specs.List.{slice_get};
ghost use Rattle.lists.specs.Words.{through, Extends};
ghost use Rattle.model.specs.Placements.{sets_of};
ghost use Rattle.ways.specs.declared.way.Way.TheVariants.{Move};
ghost use Rattle.ways.specs.Landings.{moved, placed, listed_of};
ghost use Rattle.ways.specs.Nets.{net_of, unit_at};
ghost use Rattle.network.specs.Meanings.{set_of, set_numbers, may_move, movements_of, movements, lawful};

use crate::network::{Network, SETS};
use arrayvec::ArrayVec;
use lists::blocks::locate;
use model::group_set::GroupSet;
use model::placement::Placement;
use model::state::State;
use model::value::Value;
use rules::rule::Rule;
use std::alloc::AllocError;
use systems::listed::{Listed, add_listed};
use ways::slots::unit_at;
use ways::way::Way;

/// The sets that the rule admits, in order.
pub(crate) fn admitted<R: Rule>(rule: &R) -> ArrayVec<u8, SETS>
    ensures { result.items ≡ filter (λ b. R.Rule.admitted rule.now (set_of b)) set_numbers }
{
    let mut sets = ArrayVec::new();
    for bits in 0..=u8::MAX {
        if rule.admits(GroupSet { bits }) {
            sets.push(bits);
        }
    }
    sets
}

/// The way in which the unit changes to the set with this number, if there is one.
fn moving(unit: usize, bits: Option<u8>) -> Option<Way>
    ensures { result ≡ through (λ b. Move unit (set_of b)) bits }
{
    let bits = bits?;
    Some(Way::Move {
        unit,
        set: GroupSet { bits },
    })
}

// A lawful state's placement is allowed, so the rule is asked of the change alone. Only the sets that it admits are tried:
// no unit of the network may be on another one.
impl<R: Rule> Network<R> {
    /// Whether the rule allows the placement, which is that of the state, with the unit on the set.
    fn allows_with(&self, state: &State, placement: &Placement, unit: usize, set: GroupSet) -> bool
        requires placed { sets_of placement.now ≡ placed (net_of self.now.table) state.now }
        requires lawful { lawful (net_of self.now.table) (R.Rule.allowed self.now.rule) state.now ≡ true }
        ensures { unit < self.now.table.units → result ≡ R.Rule.allowed self.now.rule (placed (net_of self.now.table) (moved state.now unit set)) }
    {
        self.rule.allows_change(placement, unit, set)
    }

    /// Whether the unit can change from its set to this one: another one with the same free part, in a placement that is
    /// allowed. The placement is that of the state.
    fn may_move(
        &self,
        state: &State,
        placement: &Placement,
        unit: usize,
        old: GroupSet,
        set: GroupSet,
    ) -> bool
        requires placed { sets_of placement.now ≡ placed (net_of self.now.table) state.now }
        requires old { old ≡ (unit_at state.now unit).groups }
        requires lawful { lawful (net_of self.now.table) (R.Rule.allowed self.now.rule) state.now ≡ true }
        ensures { unit < self.now.table.units → result ≡ may_move (net_of self.now.table) (R.Rule.allowed self.now.rule) state.now unit set }
    {
        let free = self.table.free();
        set != old
            && set.part_within(free) == old.part_within(free)
            && self.allows_with(state, placement, unit, set)
    }

    // The filter stands here and below, since no function can hand out an iterator that it does not name.
    fn movement_count_of(&self, state: &State, placement: &Placement, unit: usize) -> usize
        requires placed { sets_of placement.now ≡ placed (net_of self.now.table) state.now }
        requires lawful { lawful (net_of self.now.table) (R.Rule.allowed self.now.rule) state.now ≡ true }
        ensures { unit < self.now.table.units → result ≡ length (movements_of (net_of self.now.table) (R.Rule.allowed self.now.rule) state.now unit) }
    {
        let old = unit_at(state, unit).groups;
        self.sets
            .iter()
            .filter(|&&bits| self.may_move(state, placement, unit, old, GroupSet { bits }))
            .count()
    }

    fn movement_of(
        &self,
        state: &State,
        placement: &Placement,
        unit: usize,
        number: usize,
    ) -> Option<Way>
        requires placed { sets_of placement.now ≡ placed (net_of self.now.table) state.now }
        requires lawful { lawful (net_of self.now.table) (R.Rule.allowed self.now.rule) state.now ≡ true }
        requires unit { unit < self.now.table.units }
        ensures { result ≡ slice_get (movements_of (net_of self.now.table) (R.Rule.allowed self.now.rule) state.now unit) number }
    {
        let old = unit_at(state, unit).groups;
        let bits = self
            .sets
            .iter()
            .filter(|&&bits| self.may_move(state, placement, unit, old, GroupSet { bits }))
            .nth(number)
            .copied();
        moving(unit, bits)
    }

    // A loop, in which a unit is known to be one of the network's.
    pub(crate) fn movement_count(&self, state: &State) -> usize
        requires { lawful (net_of self.now.table) (R.Rule.allowed self.now.rule) state.now ≡ true }
        ensures is { result ≡ length (movements (net_of self.now.table) (R.Rule.allowed self.now.rule) state.now) }
        ensures few { result ≤ 6 * 256 }
    {
        let placement = self.table.placement(state);
        let mut count = 0;
        for unit in 0..self.table.units() {
            count += self.movement_count_of(state, &placement, unit);
        }
        count
    }

    pub(crate) fn movement(&self, state: &State, number: usize) -> Option<Way>
        requires { lawful (net_of self.now.table) (R.Rule.allowed self.now.rule) state.now ≡ true }
        ensures { result ≡ slice_get (movements (net_of self.now.table) (R.Rule.allowed self.now.rule) state.now) number }
    {
        let units = self.table.units();
        let placement = self.table.placement(state);
        let (unit, left) = locate(
            units,
            |unit| self.movement_count_of(state, &placement, unit),
            number,
        )?;
        self.movement_of(state, &placement, unit, left)
    }

    // Loops, since to add may want memory.
    fn add_movements_of(
        &self,
        state: &State,
        placement: &Placement,
        unit: usize,
        value: Value,
        steps: &mut Vec<Listed>,
    ) -> Result<(), AllocError>
        requires placed { sets_of placement.now ≡ placed (net_of self.now.table) state.now }
        requires lawful { lawful (net_of self.now.table) (R.Rule.allowed self.now.rule) state.now ≡ true }
        requires unit { unit < self.now.table.units }
        ensures adds { OnOk result (steps.new.items ≡ steps.old.items ++ map (listed_of (net_of self.now.table) state.now value) (movements_of (net_of self.now.table) (R.Rule.allowed self.now.rule) state.now unit)) }
        ensures begins { OnErr result (Extends steps.old.items steps.new.items) }
    {
        let old = unit_at(state, unit).groups;
        for &bits in self.sets.as_slice() {
            let set = GroupSet { bits };
            if self.may_move(state, placement, unit, old, set) {
                add_listed(steps, self.table.listed_movement(state, unit, set, value))?;
            }
        }
        Ok(())
    }

    /// Adds the movements, as they are listed at the value.
    pub(crate) fn add_movements(
        &self,
        state: &State,
        value: Value,
        steps: &mut Vec<Listed>,
    ) -> Result<(), AllocError>
        requires { lawful (net_of self.now.table) (R.Rule.allowed self.now.rule) state.now ≡ true }
        ensures adds { OnOk result (steps.new.items ≡ steps.old.items ++ map (listed_of (net_of self.now.table) state.now value) (movements (net_of self.now.table) (R.Rule.allowed self.now.rule) state.now)) }
        ensures begins { OnErr result (Extends steps.old.items steps.new.items) }
    {
        let placement = self.table.placement(state);
        for unit in 0..self.table.units() {
            self.add_movements_of(state, &placement, unit, value, steps)?;
        }
        Ok(())
    }
}
