use crate::at_most::AtMost;
use model::group_set::GroupSet;
use model::label::Label;
use model::range::Range;
use model::state::State;
use model::unit_state::UnitState;
use model::value::Value;
use network::fault::NetworkFault;
use network::network::Network;
use questions::Refusal;
use rows::row::{Guard, Operand};
use rules::fault::RuleFault;
use rules::link::NoLinkKind;
use std::test::Fail;
use systems::System;
use tables::TableFault;

const FREE: GroupSet = GroupSet { bits: 1 };

/// Row 0: at location 0 broadcast -2, to 1. Row 1: at location 2 receive into the first register, to 3.
const ROWS: [u8; 32] = [
    0, 0, 0, 0, 0, 0, 1, 2, 0xFE, 1, 0, 0, 1, 0, 0, 0, 2, 0, 0, 0, 0, 0, 2, 0, 0, 3, 0, 0, 1, 0, 0,
    0,
];

fn network(units: usize, limit: u32) -> Result<Network<AtMost>, Fail> {
    let range = Range::new(-2, 2)?;
    Ok(Network::load(range, FREE, units, &ROWS, AtMost { limit })?)
}

fn unit(location: u8, first: Value, groups: u8) -> UnitState {
    UnitState {
        location,
        first,
        second: 0,
        groups: GroupSet { bits: groups },
    }
}

fn one(only: UnitState) -> State {
    let none = UnitState::default();
    State {
        units: [only, none, none, none, none, none],
    }
}

fn two(first: UnitState, second: UnitState) -> State {
    let none = UnitState::default();
    State {
        units: [first, second, none, none, none, none],
    }
}

const SENT: Label = Label::Broadcast {
    groups: FREE,
    value: -2,
};

fn is_step(
    network: &Network<AtMost>,
    state: &State,
    step: u64,
    expected: Label,
    value: Value,
    to: &State,
) -> bool {
    network.label(state, step) == Some(expected) && network.landing(state, step, value) == Some(*to)
}

#[test]
fn broadcast_on_a_free_group(rt: HostRuntime) -> Result<(), Fail> {
    let net = network(1, 1)?;
    let state = one(unit(0, 0, 1));
    assert_eq!(rt; net.step_count(&state), 1);
    assert!(rt; is_step(&net, &state, 0, SENT, 2, &one(unit(1, 0, 1))));
    assert!(rt; net.landing(&state, 0, 3).is_none());
    let mut steps = Vec::new(rt.alloc());
    net.list(&state, 0, &mut steps)?;
    assert_eq!(rt; steps.len(), 1);
    Ok(())
}

#[test]
fn movements_keep_the_free_part(rt: HostRuntime) -> Result<(), Fail> {
    let net = network(1, 2)?;
    let state = one(unit(0, 0, 1));
    assert_eq!(rt; net.step_count(&state), 8);
    for (step, set) in [(0, 3), (1, 5), (2, 9), (3, 17), (4, 33), (5, 65), (6, 129)] {
        assert!(rt;
            is_step(
                &net,
                &state,
                step,
                Label::Movement,
                0,
                &one(unit(0, 0, set)),
            )
        );
    }
    assert!(rt; is_step(&net, &state, 7, SENT, 0, &one(unit(1, 0, 1))));
    Ok(())
}

#[test]
fn hidden_broadcast_is_silent(rt: HostRuntime) -> Result<(), Fail> {
    let net = network(1, 1)?;
    let state = one(unit(0, 0, 2));
    assert_eq!(rt; net.step_count(&state), 8);
    assert!(rt; is_step(&net, &state, 0, Label::Movement, 0, &one(unit(0, 0, 0))));
    assert!(rt; is_step(&net, &state, 7, Label::Silent, 0, &one(unit(1, 0, 2))));
    Ok(())
}

#[test]
fn broadcast_is_lost_or_received(rt: HostRuntime) -> Result<(), Fail> {
    let net = network(2, 1)?;
    let sender = unit(0, 0, 1);
    let after = unit(1, 0, 1);
    let state = two(sender, unit(2, 0, 1));
    assert_eq!(rt; net.step_count(&state), 3);
    assert!(rt; is_step(&net, &state, 0, SENT, 0, &two(after, unit(2, 0, 1))));
    assert!(rt; is_step(&net, &state, 1, SENT, 0, &two(after, unit(3, -2, 1))));
    let receive = Label::Receive { groups: FREE };
    assert!(rt; is_step(&net, &state, 2, receive, 1, &two(sender, unit(3, 1, 1))));
    let mut receives = Vec::new(rt.alloc());
    net.receives(&state, &mut receives)?;
    assert_eq!(rt; receives.len(), 1);
    Ok(())
}

#[test]
fn unlinked_unit_stays(rt: HostRuntime) -> Result<(), Fail> {
    let net = network(2, 1)?;
    let state = two(unit(0, 0, 1), unit(2, 0, 2));
    assert_eq!(rt; net.step_count(&state), 8);
    let moved = two(unit(0, 0, 1), unit(2, 0, 0));
    assert!(rt; is_step(&net, &state, 0, Label::Movement, 0, &moved));
    let sent = two(unit(1, 0, 1), unit(2, 0, 2));
    assert!(rt; is_step(&net, &state, 7, SENT, 0, &sent));
    Ok(())
}

#[test]
fn less_is_signed(rt: HostRuntime) {
    let guard = Guard::Less(Operand::First, Operand::Constant(0));
    assert!(rt; guard.holds_for(&unit(0, -2, 1)));
    assert!(rt; !guard.holds_for(&unit(0, 0, 1)));
    assert!(rt; !guard.holds_for(&unit(0, 2, 1)));
}

#[test]
fn unlawful_states_have_no_steps(rt: HostRuntime) -> Result<(), Fail> {
    let net = network(1, 1)?;
    let state = one(unit(0, 3, 1));
    assert!(rt; !net.is_lawful(&state));
    assert_eq!(rt; net.step_count(&state), 0);
    assert_eq!(rt; net.shown(&state).bits, 0);
    Ok(())
}

/// Whether a network of so many units and these rows is refused with the question and the row number.
fn is_refused(units: usize, rows: &[u8], question: u8, item: usize) -> Result<bool, Fail> {
    let range = Range::new(-2, 2)?;
    let network = Network::load(range, FREE, units, rows, AtMost { limit: 1 });
    let refusal = network.err().map(|fault| fault.refusal());
    Ok(refusal == Some(Refusal::of(question, item)))
}

#[test]
fn refusals_in_their_order(rt: HostRuntime) -> Result<(), Fail> {
    assert!(rt; is_refused(0, &ROWS, 5, 0)?);
    assert!(rt; is_refused(7, &ROWS[0..31], 5, 0)?);
    assert!(rt; is_refused(1, &ROWS[0..31], 6, 0)?);
    assert!(rt; is_refused(1, &[0; 1040], 6, 0)?);
    let mut rows = ROWS;
    rows[31] = 1;
    assert!(rt; is_refused(1, &rows, 7, 1)?);
    rows[0] = 64;
    assert!(rt; is_refused(1, &rows, 7, 0)?);
    Ok(())
}

#[test]
fn faults_in_words(rt: HostRuntime) -> Result<(), Fail> {
    let units = NetworkFault::Units;
    let row = NetworkFault::Rows(TableFault::Record { number: 1 });
    let limit = RuleFault::Limit;
    let table = RuleFault::Table(TableFault::Count);
    let kind = NoLinkKind(3);
    assert_eq!(rt;
        format!(in rt.alloc(); "{units}; {row}; {limit}; {table}; {kind}")?.as_str(),
        "there are not 1 to 6 units; record 1 is not as laid out; the limit is above 8; the bytes are no whole records, or too many; no kind of link has the byte 3"
    );
    Ok(())
}
