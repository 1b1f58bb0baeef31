// Reads many jobs on standard input, and prints a line with each verdict: the number of the job, and the 16 bytes.
#![tactic(auto)]

use anyhow::{Result, bail};
use input::{fill, skip};
use job::outcome::{ENOUGH, verdict};
use std::io::{BufReader, BufWriter, Read, Write, writer};

/// The length of the next job, low bytes first; none at the end of the input.
fn next_length<R: Read>(input: &mut R) -> Result<Option<usize>> {
    let mut bytes = [0; 4];
    match fill(input, &mut bytes)? {
        0 => Ok(None),
        4 => Ok(Some(u32::from_le_bytes(bytes) as usize)),
        _ => bail!("the input ends within a length"),
    }
}

/// The verdict on the next job, which has this length.
fn next_verdict<R: Read>(rt: &impl AllocGlobal, input: &mut R, length: usize) -> Result<[u8; 16]> {
    // As much as decides the verdict; the rest of a longer job is only passed over.
    let mut bytes = [0; ENOUGH];
    let kept = length.min(ENOUGH);
    if fill(input, &mut bytes[..kept])? < kept || !skip(input, length - kept)? {
        bail!("the input ends within a job");
    }
    Ok(verdict(rt.alloc(), &bytes[..kept]))
}

fn main(rt: HostRuntime) -> Result<()> {
    let mut input = BufReader::new(rt.alloc(), rt.stdin())?;
    let mut output = BufWriter::new(rt.alloc(), writer(&rt))?;
    for number in 0..u64::MAX {
        let Some(length) = next_length(&mut input)? else {
            break;
        };
        let verdict = next_verdict(&rt, &mut input, length)?;
        let text = hex::encode(rt.alloc(), verdict)?;
        writeln!(output, "{number} {text}")?;
    }
    output.flush()?;
    Ok(())
}
