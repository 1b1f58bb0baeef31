use crate::explain::explain;
use crate::fault::FaultWords;
use crate::label::LabelWords;
use crate::step::ShownStep;
use crate::told::Told;
use frames::frame::FrameFault;
use job::fault::{JobFault, SideFault};
use judge::fault::Fault;
use model::group_set::GroupSet;
use model::label::Label;
use model::state::State;
use model::unit_state::UnitState;
use network::fault::NetworkFault;
use questions::Side;
use rules::fault::RuleFault;
use std::test::Fail;
use tables::TableFault;

#[test]
fn labels_in_words(rt: HostRuntime) -> Result<(), Fail> {
    let heap = rt.alloc();
    let hidden = LabelWords(Label::Silent);
    let moved = LabelWords(Label::Movement);
    let sent = LabelWords(Label::Broadcast {
        groups: GroupSet { bits: 0x85 },
        value: -2,
    });
    let heard = LabelWords(Label::Receive {
        groups: GroupSet { bits: 0xFF },
    });
    assert_eq!(rt;
        format!(in heap; "{hidden}; {moved}; {sent}; {heard}")?.as_str(),
        "silent; movement; broadcast of -2 on {0, 2, 7}; receive on {0, 1, 2, 3, 4, 5, 6, 7}"
    );
    Ok(())
}

fn state_of(first: UnitState, second: UnitState) -> State {
    let nobody = UnitState::default();
    State {
        units: [first, second, nobody, nobody, nobody, nobody],
    }
}

fn unit_of(location: u8, first: i8, groups: u8) -> UnitState {
    UnitState {
        location,
        first,
        second: 0,
        groups: GroupSet { bits: groups },
    }
}

#[test]
fn a_receive_in_words(rt: HostRuntime) -> Result<(), Fail> {
    let heap = rt.alloc();
    let sender = unit_of(0, 0, 1);
    let step = ShownStep {
        units: 2,
        state: state_of(sender, unit_of(2, 0, 3)),
        label: Label::Receive {
            groups: GroupSet { bits: 1 },
        },
        lo: -1,
        at_lo: state_of(sender, unit_of(3, -1, 3)),
        hi: 1,
        at_hi: state_of(sender, unit_of(3, 1, 3)),
    };
    let told = Told::Unlike {
        fault: Fault::RightStep { pair: 4, step: 2 },
        step: Some(step),
    };
    assert_eq!(rt;
        format!(in heap; "{told}")?.as_str(),
        "Refused by question 16: Has each step of the right state a reply?\nThe first no is at pair 4, step 2.\nThe state:\n  unit 0: location 0, registers 0 and 0, groups {0}\n  unit 1: location 2, registers 0 and 0, groups {0, 1}\nThe step: receive on {0}\nIt lands by the value that is received. At -1 it lands in:\n  unit 0: location 0, registers 0 and 0, groups {0}\n  unit 1: location 3, registers -1 and 0, groups {0, 1}\nAt 1 it lands in:\n  unit 0: location 0, registers 0 and 0, groups {0}\n  unit 1: location 3, registers 1 and 0, groups {0, 1}\n"
    );
    Ok(())
}

#[test]
fn faults_in_words(rt: HostRuntime) -> Result<(), Fail> {
    let heap = rt.alloc();
    let frame = FaultWords(JobFault::BadFrame(FrameFault::Record { number: 3 }));
    let link = FaultWords(JobFault::BadSide {
        side: Side::Left,
        fault: SideFault::BadRule(RuleFault::Table(TableFault::Record { number: 1 })),
    });
    let row = FaultWords(JobFault::BadSide {
        side: Side::Right,
        fault: SideFault::BadNetwork(NetworkFault::Rows(TableFault::Record { number: 2 })),
    });
    let shown = FaultWords(JobFault::NotAlike(Fault::Shown { pair: 7 }));
    assert_eq!(rt;
        format!(in heap; "{frame}{link}")?.as_str(),
        "Refused by question 23: Has each record its kind, side, position and zero bytes?\nThe first no is at record 3.\nRefused by question 3, left side: Is each link as laid out?\nThe first no is at link 1.\n"
    );
    assert_eq!(rt;
        format!(in heap; "{row}{shown}")?.as_str(),
        "Refused by question 7, right side: Is each row as laid out, with its constants in the range?\nThe first no is at row 2.\nRefused by question 14: Do both states show the same set?\nThe first no is at pair 7.\n"
    );
    Ok(())
}

#[test]
fn jobs_in_words(rt: HostRuntime) -> Result<(), Fail> {
    let heap = rt.alloc();
    let nothing = explain(heap, &[]);
    let mut job = [0; 128];
    job[0] = 1;
    job[5] = 1;
    job[64] = 1;
    job[65] = 1;
    job[69] = 1;
    let accepted = explain(heap, &job);
    job[66] = 3;
    let backward = explain(heap, &job);
    assert_eq!(rt;
        format!(in heap; "{nothing}{accepted}{backward}")?.as_str(),
        "Refused by question 22: Is the length a multiple of 64, from 128 to 65536?\nAccepted: the relation is a late strong bisimulation between the two networks.\nIts count of pairs is 0.\nRefused by question 1, right side: Is the lowest value of the range at most the highest?\n"
    );
    Ok(())
}
