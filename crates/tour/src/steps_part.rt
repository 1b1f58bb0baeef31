// The steps of a state in words, for every kind of system.
use anyhow::Context;
use model::label::Label;
use model::state::State;
use model::value::Value;
use systems::System;

fn show_state(rt: &HostRuntime, state: &State, units: usize) -> anyhow::Result<()> {
    for unit in state.units.iter().take(units) {
        print!(rt; " {unit}")?;
    }
    println!(rt)?;
    Ok(())
}

fn show_landing<S: System>(
    rt: &HostRuntime,
    system: &S,
    state: &State,
    step: u64,
    value: Value,
    units: usize,
) -> anyhow::Result<()> {
    let landing = system
        .landing(state, step, value)
        .context("a step does not land")?;
    show_state(rt, &landing, units)
}

fn show_step<S: System>(
    rt: &HostRuntime,
    system: &S,
    state: &State,
    step: u64,
    units: usize,
) -> anyhow::Result<()> {
    let label = system.label(state, step).context("a step has no label")?;
    let range = system.range();
    match label {
        Label::Receive { groups: _ } => {
            println!(rt; "  step {step}: {label}")?;
            for value in range.lo()..=range.hi() {
                print!(rt; "    at {value} to")?;
                show_landing(rt, system, state, step, value, units)?;
            }
            Ok(())
        }
        _ => {
            print!(rt; "  step {step}: {label}, to")?;
            show_landing(rt, system, state, step, range.lo(), units)
        }
    }
}

/// The steps of a state, of which so many units are shown.
pub fn show_steps<S: System>(
    rt: &HostRuntime,
    system: &S,
    state: &State,
    units: usize,
) -> anyhow::Result<()> {
    print!(rt; "steps of")?;
    show_state(rt, state, units)?;
    let count = system.step_count(state);
    if count == 0 {
        println!(rt; "  none")?;
    }
    for step in 0..count {
        show_step(rt, system, state, step, units)?;
    }
    Ok(())
}
