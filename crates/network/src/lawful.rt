ghost use Rattle.std.specs.Prelude.{◌≡◌};
ghost use Rattle.std.specs.List.{range_with_len};
ghost use Rattle.lists.specs.Words.{every};
ghost use Rattle.ways.specs.Nets.{net_of};
ghost use Rattle.network.specs.Meanings.{unit_in_range, zero_bytes, slot_lawful, lawful, union_shown};

use crate::network::Network;
use model::group_set::GroupSet;
use model::state::State;
use model::unit_state::{UNITS, UnitState};
use rules::rule::Rule;
use ways::slots::unit_at;
use ways::table::Table;

fn is_in_range(table: &Table, unit: &UnitState) -> bool
    ensures { result ≡ unit_in_range (net_of table.now) unit.now }
{
    let range = table.program().range();
    unit.location <= 63 && range.holds(unit.first) && range.holds(unit.second)
}

fn is_zero(unit: &UnitState) -> bool
    ensures { result ≡ zero_bytes unit.now }
{
    *unit == UnitState::default()
}

fn is_slot_lawful(table: &Table, state: &State, slot: usize) -> bool
    ensures { result ≡ slot_lawful (net_of table.now) state.now slot }
{
    let unit = unit_at(state, slot);
    if slot < table.units() {
        is_in_range(table, &unit)
    } else {
        is_zero(&unit)
    }
}

fn are_slots_lawful(table: &Table, state: &State) -> bool
    ensures { result ≡ every (slot_lawful (net_of table.now) state.now) (range_with_len 0 6) }
{
    (0..UNITS).all(|slot| is_slot_lawful(table, state, slot))
}

/// The free part of the union of the units' sets.
pub(crate) fn union_shown(table: &Table, state: &State) -> GroupSet
    ensures { result ≡ union_shown (net_of table.now) state.now }
{
    // The empty set is written out: from `GroupSet::default()` the check does not see that the fold begins at it.
    let union = state.units[..table.units()]
        .iter()
        .fold(GroupSet { bits: 0 }, |union, unit| {
            union.union(unit.groups)
        });
    union.part_within(table.free())
}

impl<R: Rule> Network<R> {
    pub(crate) fn is_state_lawful(&self, state: &State) -> bool
        ensures { result ≡ lawful (net_of self.now.table) (R.Rule.allowed self.now.rule) state.now }
    {
        are_slots_lawful(&self.table, state) && self.rule.allows(&self.table.placement(state))
    }
}
