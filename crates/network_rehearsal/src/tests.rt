use crate::rehearse_networks;
use judge::comparison::Comparison;
use judge::verdict::judge;
use model::group_set::GroupSet;
use model::range::Range;
use model::state::{Pair, State};
use model::unit_state::UnitState;
use model::value::Value;
use network::network::Network;
use play::answered::Answered;
use play::fault::Fault;
use play::level::Level;
use questions::Side;
use rehearsal::attempt::{Attempt, Call, Outcome};
use rehearsal::fault::RehearsalFault;
use rehearsal::playing::Play;
use rehearsal::rehearse::rehearse;
use rules::tuner::Tuner;
use sheet::sheet::Sheet;
use std::alloc::Global;
use std::test::Fail;
use systems::System;

/// At location 0 broadcast -2, to location 1.
const SENDS: [u8; 16] = [0, 0, 0, 0, 0, 0, 1, 2, 0xFE, 1, 0, 0, 1, 0, 0, 0];

/// In state 0 receive on group 0: 1 leads to state 1, and any other value to state 2, where 1 is sent.
const RECEIVES: [u8; 12] = [0, 3, 1, 1, 1, 2, 2, 2, 1, 1, 1, 1];

const LEFT: Side = Side::Left;

const RIGHT: Side = Side::Right;

fn network(hi: Value) -> Result<Network<Tuner>, Fail> {
    let range = Range::new(-2, hi)?;
    Ok(Network::load(range, GroupSet { bits: 1 }, 1, &SENDS, Tuner::new(1)?)?)
}

fn sheet() -> Result<Sheet, Fail> {
    let range = Range::new(-2, 2)?;
    Ok(Sheet::load(range, GroupSet { bits: 1 }, &RECEIVES)?)
}

/// The first unit at that location, on those groups, and no other unit.
fn state(location: u8, groups: u8) -> State {
    let mut state = State::default();
    state.units[0] = UnitState {
        location,
        first: 0,
        second: 0,
        groups: GroupSet { bits: groups },
    };
    state
}

/// The pair of that state with itself.
fn alike(location: u8, groups: u8) -> Pair {
    Pair {
        left: state(location, groups),
        right: state(location, groups),
    }
}

/// An answered play from a pair, over a relation that passes; the left side challenges with its first step.
fn answered<L: System, R: System>(
    heap: Global,
    comparison: &Comparison<'_, L, R>,
    pair: usize,
) -> Result<Answered, Fail> {
    let pass = judge(heap, comparison.left, comparison.right, comparison.relation)?;
    let play = Level::begin(&pass, pair)?;
    let play = play.challenge(comparison, LEFT, 0)?;
    Ok(play.reply(comparison)?)
}

#[test]
fn a_play_between_networks(rt: HostRuntime) -> Result<(), Fail> {
    let heap = rt.alloc();
    let network = network(2)?;
    let relation = [alike(0, 1), alike(1, 1)];
    let comparison = Comparison {
        left: &network,
        right: &network,
        relation: &relation,
    };
    let pass = judge(heap, &network, &network, &relation)?;
    let level = Level::begin(&pass, 0)?;
    let play = level.challenge(&comparison, RIGHT, 0)?;
    assert_eq!(rt; play.pair(), 0);
    assert_eq!(rt; play.side(), RIGHT);
    assert_eq!(rt; play.step(), 0);
    let play = play.reply(&comparison)?;
    assert_eq!(rt; play.pair(), 0);
    assert_eq!(rt; play.side(), RIGHT);
    assert_eq!(rt; play.step(), 0);
    assert_eq!(rt; play.reply_step(), 0);
    // A broadcast lands alike at every value, so no value is out of range for it.
    let play = play.settle(&comparison, 100)?;
    assert_eq!(rt; play.pair(), 1);
    Ok(())
}

#[test]
fn values_told_to_a_receive(rt: HostRuntime) -> Result<(), Fail> {
    let heap = rt.alloc();
    let sheet = sheet()?;
    let relation = [alike(0, 0), alike(1, 0), alike(2, 0), alike(1, 0)];
    let comparison = Comparison {
        left: &sheet,
        right: &sheet,
        relation: &relation,
    };
    for (value, pair) in [(-2, 2), (0, 2), (1, 1), (2, 2)] {
        let play = answered(heap, &comparison, 0)?.settle(&comparison, value)?;
        assert_eq!(rt; play.pair(), pair);
    }
    Ok(())
}

#[test]
fn a_receive_is_refused_a_value_out_of_range(rt: HostRuntime) -> Result<(), Fail> {
    let heap = rt.alloc();
    let sheet = sheet()?;
    let relation = [alike(0, 0), alike(1, 0), alike(2, 0)];
    let comparison = Comparison {
        left: &sheet,
        right: &sheet,
        relation: &relation,
    };
    let refused = answered(heap, &comparison, 0)?
        .settle(&comparison, 3)
        .err()
        .ok_or("taken")?;
    assert_eq!(rt; refused.fault, Fault::Value);
    assert_eq!(rt; refused.play.reply_step(), 0);
    // The play goes on from where it was.
    assert_eq!(rt; refused.play.settle(&comparison, 1)?.pair(), 1);
    Ok(())
}

#[test]
fn challenges_that_are_refused(rt: HostRuntime) -> Result<(), Fail> {
    let heap = rt.alloc();
    let (wide, narrow) = (network(2)?, network(1)?);
    let relation = [alike(0, 1), alike(1, 1)];
    let full = vec![in heap; alike(0, 1); 4097]?;
    let pass = judge(heap, &wide, &wide, &relation)?;
    assert_eq!(rt; Level::begin(&pass, 2).err(), Some(Fault::NoPair));
    let cases: [(&Network<Tuner>, &[Pair], u64, Fault); 4] = [
        (&narrow, &full, 9, Fault::Ranges),
        (&wide, &full, 9, Fault::TooMany),
        (&wide, &relation[..1], 9, Fault::NoPair),
        (&wide, &relation, 0, Fault::NoStep),
    ];
    for (right, relation, step, fault) in cases {
        let comparison = Comparison {
            left: &wide,
            right,
            relation,
        };
        let play = Level::begin(&pass, 1)?;
        let refused = play
            .challenge(&comparison, LEFT, step)
            .err()
            .ok_or("taken")?;
        assert_eq!(rt; refused.fault, fault);
        assert_eq!(rt; refused.play.pair(), 1);
    }
    Ok(())
}

#[test]
fn replies_and_settles_that_are_refused(rt: HostRuntime) -> Result<(), Fail> {
    let heap = rt.alloc();
    let (wide, narrow) = (network(2)?, network(1)?);
    let relation = [alike(0, 1), alike(1, 1)];
    // In the second one the present pair has no steps; in the third it has, but their landings are no record.
    let done = [alike(1, 1), alike(0, 1)];
    let full = vec![in heap; alike(0, 1); 4097]?;
    let whole = Comparison {
        left: &wide,
        right: &wide,
        relation: &relation,
    };
    let pass = judge(heap, &wide, &wide, &relation)?;
    let cases: [(&Network<Tuner>, &[Pair], Fault, Fault); 5] = [
        (&narrow, &full, Fault::Ranges, Fault::Ranges),
        (&wide, &full, Fault::TooMany, Fault::TooMany),
        (&wide, &[], Fault::NoPair, Fault::NoPair),
        (&wide, &done, Fault::NoStep, Fault::NoStep),
        (&wide, &relation[..1], Fault::NoReply, Fault::Landings),
    ];
    for (right, relation, at_reply, at_settle) in cases {
        let comparison = Comparison {
            left: &wide,
            right,
            relation,
        };
        let challenged = Level::begin(&pass, 0)?.challenge(&whole, LEFT, 0)?;
        let refused = challenged.reply(&comparison).err().ok_or("taken")?;
        assert_eq!(rt; refused.fault, at_reply);
        assert_eq!(rt; refused.play.step(), 0);
        let answered = refused.play.reply(&whole)?;
        let refused = answered.settle(&comparison, 0).err().ok_or("taken")?;
        assert_eq!(rt; refused.fault, at_settle);
        assert_eq!(rt; refused.play.settle(&whole, 0)?.pair(), 1);
    }
    Ok(())
}

/// In state 0 send 1 twice, to state 1; or, with other bytes, to state 2.
const fn sends(to: u8) -> [u8; 12] {
    [0, 2, 1, 1, to, to, 0, 2, 1, 1, to, to]
}

#[test]
fn the_first_reply_and_the_first_record(rt: HostRuntime) -> Result<(), Fail> {
    let heap = rt.alloc();
    let range = Range::new(-2, 2)?;
    let channels = GroupSet { bits: 1 };
    let left = Sheet::load(range, channels, &sends(1))?;
    let right = Sheet::load(range, channels, &sends(2))?;
    let start = alike(0, 0);
    let end = Pair {
        left: state(1, 0),
        right: state(2, 0),
    };
    let relation = [start, end, start, end];
    let comparison = Comparison {
        left: &left,
        right: &right,
        relation: &relation,
    };
    let pass = judge(heap, &left, &right, &relation)?;
    // It begins at the pair that it is given, though an equal one comes before.
    let play = Level::begin(&pass, 2)?;
    assert_eq!(rt; play.pair(), 2);
    let play = play.challenge(&comparison, RIGHT, 1)?.reply(&comparison)?;
    assert_eq!(rt; play.reply_step(), 0);
    assert_eq!(rt; play.settle(&comparison, 0)?.pair(), 1);
    Ok(())
}

#[test]
fn a_list_of_calls(rt: HostRuntime) -> Result<(), Fail> {
    let heap = rt.alloc();
    let network = network(2)?;
    let relation = [alike(0, 1), alike(1, 1)];
    let comparison = Comparison {
        left: &network,
        right: &network,
        relation: &relation,
    };
    let first = Call::Challenge {
        side: LEFT,
        step: 0,
    };
    let calls = [
        first,
        Call::Settle { value: 0 },
        Call::Reply,
        first,
        Call::Settle { value: 0 },
        first,
    ];
    let mut attempts = calls.map(Attempt::of);
    let play = rehearse_networks(heap, &comparison, 0, &mut attempts)?;
    assert!(rt; matches!(play, Play::Level(level) if level.pair() == 1));
    let outcomes = [
        Outcome::Taken,
        Outcome::OutOfTurn,
        Outcome::Taken,
        Outcome::OutOfTurn,
        Outcome::Taken,
        Outcome::Refused(Fault::NoStep),
    ];
    for (attempt, outcome) in attempts.iter().zip(outcomes) {
        assert_eq!(rt; attempt.outcome, Some(outcome));
    }
    Ok(())
}

#[test]
fn no_call_is_made_without_a_play(rt: HostRuntime) -> Result<(), Fail> {
    let heap = rt.alloc();
    let sheet = sheet()?;
    let relation = [alike(0, 0), alike(1, 0), alike(2, 0)];
    let mut attempts = [Attempt::of(Call::Reply)];
    let whole = Comparison {
        left: &sheet,
        right: &sheet,
        relation: &relation,
    };
    let not_begun = rehearse(heap, &whole, 3, &mut attempts).err();
    assert_eq!(rt; not_begun, Some(RehearsalFault::NotBegun(Fault::NoPair)));
    let short = Comparison {
        relation: &relation[..2],
        ..whole
    };
    let not_accepted = rehearse(heap, &short, 3, &mut attempts)
        .err()
        .map(|fault| fault.refusal().question);
    assert_eq!(rt; not_accepted, Some(15));
    assert_eq!(rt; attempts[0].outcome, None);
    Ok(())
}

#[test]
fn faults_in_words(rt: HostRuntime) -> Result<(), Fail> {
    let heap = rt.alloc();
    let faults = [
        RehearsalFault::NotAccepted(judge::fault::Fault::Ranges),
        RehearsalFault::NotBegun(Fault::NoPair),
    ];
    let words = [
        "the systems have different ranges",
        "there is no pair with that number",
    ];
    for (fault, words) in faults.iter().zip(words) {
        assert_eq!(rt; format!(in heap; "{fault}")?.as_str(), words);
    }
    Ok(())
}
