// Reads a job on standard input and prints its answer in words.
#![tactic(auto)]

use input::fill;
use job::outcome::ENOUGH;
use words::explain::explain;

fn main(rt: HostRuntime) -> anyhow::Result<()> {
    // As much as decides the verdict, without asking for memory.
    let mut bytes = [0; ENOUGH];
    let count = fill(&mut rt.stdin(), &mut bytes)?;
    let told = explain(rt.alloc(), &bytes[0..count]);
    print!(rt; "{told}")?;
    Ok(())
}
