use crate::sheets_part::{FOUR_ROWS, THREE_ROWS, worked_sheet};
use judge::fault::Fault;
use judge::verdict::judge;
use model::state::Pair;
use questions::Refusal;
use sheet::states::state_at;
use systems::System;

fn show_refusal(rt: &HostRuntime, fault: &Fault) -> anyhow::Result<()> {
    let Refusal {
        question,
        side: _,
        item,
        step,
    } = fault.refusal();
    match *fault {
        Fault::Ranges | Fault::TooMany => println!(rt; "no to question {question}")?,
        Fault::LeftStep { pair: _, step: _ } | Fault::RightStep { pair: _, step: _ } => {
            println!(rt; "no to question {question}, pair {item}, step {step}")?
        }
        _ => println!(rt; "no to question {question}, pair {item}")?,
    }
    Ok(())
}

/// Judges a relation and says the verdict in words.
pub fn show_verdict<L: System, R: System>(
    rt: &HostRuntime,
    what: &str,
    left: &L,
    right: &R,
    relation: &[Pair],
) -> anyhow::Result<()> {
    print!(rt; "{what}: ")?;
    match judge(rt.alloc(), left, right, relation) {
        Ok(pass) => {
            let count = pass.count();
            println!(rt; "accepted, {count} pairs")?;
            Ok(())
        }
        Err(fault) => show_refusal(rt, &fault),
    }
}

fn alike(number: u8) -> Pair {
    Pair {
        left: state_at(number),
        right: state_at(number),
    }
}

pub fn show_judge(rt: &HostRuntime) -> anyhow::Result<()> {
    let four = worked_sheet(&FOUR_ROWS)?;
    let three = worked_sheet(&THREE_ROWS)?;
    let relation = [alike(0), alike(1), alike(2)];
    show_verdict(
        rt,
        "the sheet of four rows against itself",
        &four,
        &four,
        &relation,
    )?;
    show_verdict(
        rt,
        "the same with the pair of 2 left out",
        &four,
        &four,
        &relation[0..2],
    )?;
    show_verdict(
        rt,
        "four rows against three, where a reply would depend on the value",
        &four,
        &three,
        &relation,
    )?;
    show_verdict(rt, "three rows against four", &three, &four, &relation)?;
    show_verdict(rt, "no pairs", &four, &three, &[])
}
