ghost use Rattle.std.specs.Prelude.{true, [], ◌∷◌, if◌then◌else◌};
ghost use Rattle.model.specs.declared.label.Label.TheVariants.{Silent, Movement};
ghost use Rattle.std.proofs.Common.{rules};

use crate::fault::Fault;
use crate::verdict::judge;
use model::group_set::GroupSet;
use model::label::Label;
use model::range::Range;
use model::state::{Pair, State};
use model::value::Value;
use std::alloc::{AllocError, Global};
use std::test::Fail;
use systems::System;

/// Every state is lawful and shows the same set. Its steps lead back to it: a silent one, and a movement if it moves.
#[derive(Clone, Copy)]
struct Toy {
    range: Range,
    groups: GroupSet,
    moves: bool,
}

impl System for Toy {
    type Receive = u8;

    ghost means = { λ toy. record {
      lo = toy.range.lo;
      hi = toy.range.hi;
      lawful = λ _. true;
      shown = λ _. toy.groups;
      steps = λ s. record { label = Silent; landing = λ _. s } ∷ (if toy.moves then (record { label = Movement; landing = λ _. s } ∷ []) else []);
    } };

    ghost receive_by = { λ _ s _. record { label = Silent; landing = λ _. s } };

    ghost keeps = { Prim.search rules };

    fn range(&self) -> Range {
        self.range
    }

    fn is_lawful(&self, _state: &State) -> bool {
        true
    }

    fn shown(&self, _state: &State) -> GroupSet {
        self.groups
    }

    fn step_count(&self, _state: &State) -> u64 {
        if self.moves { 2 } else { 1 }
    }

    fn label(&self, _state: &State, step: u64) -> Option<Label> {
        match step {
            0 => Some(Label::Silent),
            1 if self.moves => Some(Label::Movement),
            _ => None,
        }
    }

    fn landing(&self, state: &State, step: u64, value: Value) -> Option<State> {
        match self.label(state, step) {
            Some(_) if self.range.holds(value) => Some(*state),
            _ => None,
        }
    }

    fn receives(&self, _state: &State, _receives: &mut Vec<u8>) -> Result<(), AllocError> {
        Ok(())
    }

    fn landing_by(&self, state: &State, _receive: &u8, value: Value) -> Option<State> {
        self.range.holds(value).then_some(*state)
    }
}

/// The range runs from -2 to 2 or 3.
fn make(wide: bool, bits: u8, moves: bool) -> Result<Toy, Fail> {
    let hi = if wide { 3 } else { 2 };
    Ok(Toy {
        range: Range::new(-2, hi)?,
        groups: GroupSet { bits },
        moves,
    })
}

fn pair() -> Pair {
    let state = State::default();
    Pair {
        left: state,
        right: state,
    }
}

fn fault_of(heap: Global, left: Toy, right: Toy) -> Option<Fault> {
    let relation = [pair()];
    judge(heap, &left, &right, &relation).err()
}

#[test]
fn passes_with_the_count_of_records(rt: HostRuntime) -> Result<(), Fail> {
    let heap = rt.alloc();
    let moving = make(false, 1, true)?;
    let relation = [pair(), pair()];
    assert_eq!(rt; judge(heap, &moving, &moving, &relation)?.count(), 2);
    assert_eq!(rt;
        judge(heap, &moving, &make(false, 2, false)?, &[])?.count(),
        0
    );
    Ok(())
}

#[test]
fn faults_in_words(rt: HostRuntime) -> Result<(), Fail> {
    let heap = rt.alloc();
    assert_eq!(rt;
        format!(in heap; "{}; {}", Fault::Ranges, Fault::TooMany)?.as_str(),
        "the systems have different ranges; the relation has too many pairs"
    );
    let left = Fault::LeftUnlawful { pair: 1 };
    let right = Fault::RightUnlawful { pair: 2 };
    let shown = Fault::Shown { pair: 3 };
    assert_eq!(rt;
        format!(in heap; "{left}; {right}; {shown}")?.as_str(),
        "the left state of pair 1 is not lawful; the right state of pair 2 is not lawful; the states of pair 3 show different sets"
    );
    let left = Fault::LeftStep { pair: 4, step: 5 };
    let right = Fault::RightStep { pair: 6, step: 7 };
    assert_eq!(rt;
        format!(in heap; "{left}; {right}")?.as_str(),
        "step 5 of the left state of pair 4 has no reply; step 7 of the right state of pair 6 has no reply"
    );
    Ok(())
}

#[test]
fn refuses_with_the_first_no(rt: HostRuntime) -> Result<(), Fail> {
    let heap = rt.alloc();
    let plain = make(false, 1, false)?;
    assert_eq!(rt;
        fault_of(heap, plain, make(true, 2, true)?),
        Some(Fault::Ranges)
    );
    assert_eq!(rt;
        fault_of(heap, plain, make(false, 2, true)?),
        Some(Fault::Shown { pair: 0 })
    );
    assert_eq!(rt;
        fault_of(heap, make(false, 1, true)?, plain),
        Some(Fault::LeftStep { pair: 0, step: 1 })
    );
    assert_eq!(rt;
        fault_of(heap, plain, make(false, 1, true)?),
        Some(Fault::RightStep { pair: 0, step: 1 })
    );
    Ok(())
}
