use crate::all::table;
use crate::example::{Example, Source, Step};
use judge::verdict::judge;
use model::group_set::GroupSet;
use model::range::Range;
use model::state::{Pair, State};
use model::value::Value;
use network::network::Network;
use questions::Refusal;
use rules::tuner::Tuner;
use sheet::sheet::Sheet;
use std::alloc::Global;
use std::test::Fail;
use systems::System;

const FREE: GroupSet = GroupSet { bits: 1 };

fn network(units: usize, limit: u8, rows: &[u8]) -> Result<Network<Tuner>, Fail> {
    let range = Range::new(-2, 2)?;
    let tuner = Tuner::new(limit)?;
    Ok(Network::load(range, FREE, units, rows, tuner)?)
}

fn sheet(rows: &[u8]) -> Result<Sheet, Fail> {
    let range = Range::new(-2, 2)?;
    Ok(Sheet::load(range, FREE, rows)?)
}

/// Whether these are the steps that the system lists in one pass, landings at the value included.
fn lists<S: System>(
    heap: Global,
    system: &S,
    state: &State,
    steps: &[Step],
    value: Value,
) -> Result<bool, Fail> {
    let mut listed = Vec::new(heap);
    system.list(state, value, &mut listed)?;
    let alike = steps.iter().zip(listed.iter()).all(|(step, listed)| {
        listed.label == step.label && listed.landing == Some(step.landing.at(value))
    });
    Ok(alike && listed.len() == steps.len())
}

/// Whether the system answers with these steps, asked for one by one.
fn answers<S: System>(system: &S, state: &State, steps: &[Step], value: Value) -> bool {
    steps.iter().enumerate().all(|(k, step)| {
        system.label(state, k as u64) == Some(step.label)
            && system.landing(state, k as u64, value) == Some(step.landing.at(value))
    })
}

/// Whether these are the steps of the state at every value in the range, and no others.
fn has_steps<S: System>(
    heap: Global,
    system: &S,
    state: &State,
    steps: &[Step],
) -> Result<bool, Fail> {
    for value in -2..=2 {
        if !lists(heap, system, state, steps, value)? || !answers(system, state, steps, value) {
            return Ok(false);
        }
    }
    let past = steps.len() as u64;
    Ok(
        system.step_count(state) == past
            && system.label(state, past).is_none()
            && system.landing(state, past, 0).is_none()
            && system.landing(state, 0, 3).is_none(),
    )
}

fn verdict<L: System, R: System>(
    heap: Global,
    left: &L,
    right: &R,
    relation: &[Pair],
) -> Result<usize, Refusal> {
    judge(heap, left, right, relation)
        .map(|pass| pass.count())
        .map_err(|fault| fault.refusal())
}

fn verdict_beside<L: System>(
    heap: Global,
    left: &L,
    right: Source,
    relation: &[Pair],
) -> Result<Result<usize, Refusal>, Fail> {
    match right {
        Source::Network { units, limit, rows } => {
            let right = network(units, limit, rows)?;
            Ok(verdict(heap, left, &right, relation))
        }
        Source::Sheet { rows } => {
            let right = sheet(rows)?;
            Ok(verdict(heap, left, &right, relation))
        }
    }
}

fn verdict_on(
    heap: Global,
    left: Source,
    right: Source,
    relation: &[Pair],
) -> Result<Result<usize, Refusal>, Fail> {
    match left {
        Source::Network { units, limit, rows } => {
            let left = network(units, limit, rows)?;
            verdict_beside(heap, &left, right, relation)
        }
        Source::Sheet { rows } => {
            let left = sheet(rows)?;
            verdict_beside(heap, &left, right, relation)
        }
    }
}

fn holds(heap: Global, example: &Example) -> Result<bool, Fail> {
    match example {
        Example::Steps {
            of: Source::Network { units, limit, rows },
            state,
            steps,
        } => has_steps(heap, &network(*units, *limit, rows)?, state, steps),
        Example::Steps {
            of: Source::Sheet { rows },
            state,
            steps,
        } => has_steps(heap, &sheet(rows)?, state, steps),
        Example::Verdict {
            left,
            right,
            relation,
            verdict,
        } => Ok(verdict_on(heap, *left, *right, relation)? == *verdict),
    }
}

// The table is the one that is proved: here each of its examples is put to the code as it is built.
#[test]
fn table_holds_of_the_code(rt: HostRuntime) -> Result<(), Fail> {
    for (k, example) in table().iter().enumerate() {
        assert!(rt; holds(rt.alloc(), example)?, "example {k}");
    }
    Ok(())
}
