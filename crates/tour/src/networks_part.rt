use crate::judge_part::show_verdict;
use crate::sheets_part::worked_sheet;
use crate::steps_part::show_steps;
use model::group_set::GroupSet;
use model::range::Range;
use model::state::{Pair, State};
use model::unit_state::UnitState;
use network::network::Network;
use rules::tuner::Tuner;
use sheet::states::state_at;

// At location 0 broadcast -2 and go to 1; at location 2 receive into the first register and go to 3; both keep registers.
const ROWS: [u8; 32] = [
    0, 0, 0, 0, 0, 0, 1, 2, 0xFE, 1, 0, 0, 1, 0, 0, 0, 2, 0, 0, 0, 0, 0, 2, 0, 0, 3, 0, 0, 1, 0, 0,
    0,
];

// From 0 broadcast -2 on {0} and go to 1.
const BROADCAST: [u8; 6] = [0, 2, 1, 0xFE, 1, 1];

/// The network of these rows over the range -2 to 2, with the free group 0.
fn worked_network(units: usize, limit: u8) -> anyhow::Result<Network<Tuner>> {
    let range = Range::new(-2, 2)?;
    let tuner = Tuner::new(limit)?;
    Ok(Network::load(range, GroupSet { bits: 1 }, units, &ROWS, tuner)?)
}

/// A unit at a location, on a set, with zero registers.
fn unit_at(location: u8, set: u8) -> UnitState {
    UnitState {
        location,
        groups: GroupSet { bits: set },
        ..UnitState::default()
    }
}

/// The state of one unit.
fn one(unit: UnitState) -> State {
    two(unit, UnitState::default())
}

/// The state of two units.
fn two(first: UnitState, second: UnitState) -> State {
    let none = UnitState::default();
    State {
        units: [first, second, none, none, none, none],
    }
}

pub fn show_networks(rt: &HostRuntime) -> anyhow::Result<()> {
    let network = worked_network(1, 1)?;
    println!(rt; "one unit, at most one group: a broadcast on a free group, then on a hidden one")?;
    show_steps(rt, &network, &one(unit_at(0, 1)), 1)?;
    show_steps(rt, &network, &one(unit_at(0, 2)), 1)?;
    println!(rt; "one unit, at most two groups: movements keep the free group")?;
    show_steps(rt, &worked_network(1, 2)?, &one(unit_at(0, 1)), 1)?;
    let network = worked_network(2, 1)?;
    println!(rt; "two units that are linked: a broadcast is lost or heard")?;
    show_steps(rt, &network, &two(unit_at(0, 1), unit_at(2, 1)), 2)?;
    println!(rt; "two units that are not linked")?;
    show_steps(rt, &network, &two(unit_at(0, 1), unit_at(2, 2)), 2)
}

pub fn show_judged(rt: &HostRuntime) -> anyhow::Result<()> {
    let network = worked_network(1, 1)?;
    let s0 = one(unit_at(0, 1));
    let s1 = one(unit_at(1, 1));
    let both = [
        Pair {
            left: s0,
            right: s0,
        },
        Pair {
            left: s1,
            right: s1,
        },
    ];
    show_verdict(rt, "a network against itself", &network, &network, &both)?;
    show_verdict(
        rt,
        "the same with the second pair left out",
        &network,
        &network,
        &both[0..1],
    )?;
    let crossed = [Pair {
        left: s1,
        right: s0,
    }];
    show_verdict(
        rt,
        "a unit that is done against one that is not",
        &network,
        &network,
        &crossed,
    )?;
    let hidden = [Pair {
        left: s1,
        right: one(unit_at(1, 2)),
    }];
    show_verdict(
        rt,
        "a free group against a hidden one",
        &network,
        &network,
        &hidden,
    )?;
    let sheet = worked_sheet(&BROADCAST)?;
    let mixed = [
        Pair {
            left: s0,
            right: state_at(0),
        },
        Pair {
            left: s1,
            right: state_at(1),
        },
    ];
    show_verdict(rt, "a network against a sheet", &network, &sheet, &mixed)?;
    let looser = worked_network(1, 2)?;
    show_verdict(
        rt,
        "at most one group against at most two",
        &network,
        &looser,
        &both,
    )
}
