// Reads a job on standard input and writes the 16 bytes of its verdict.
#![tactic(auto)]

use reading::read_verdict;
use std::io::Write;

fn main(rt: HostRuntime) -> anyhow::Result<()> {
    let verdict = read_verdict(rt.alloc(), &mut rt.stdin())?;
    rt.stdout().write_all(&verdict)?;
    Ok(())
}
