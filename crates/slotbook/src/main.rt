#![tactic(auto)]

use batch::respond::{INPUT_BYTES, respond};
use batch::workspace::Workspace;
use batch::workspace::reserves::OUTPUT_BYTES;
use std::io::{Read, Write};
use stops::refusal::Refusal;

// Reads standard input, responds, and writes once.
fn main(rt: HostRuntime) -> anyhow::Result<()> {
    let heap = rt.alloc();
    // want of memory is told in the words of a refusal
    let work = Workspace::reserve(heap).map_err(Refusal::from)?;
    // one byte past the longest lawful input is enough to refuse it
    let mut input = Vec::with_capacity(heap, INPUT_BYTES + 1)?;
    let _ = rt
        .stdin()
        .take(INPUT_BYTES as u64 + 1)
        .read_to_end(&mut input)?;
    let mut out = vec![in heap; 0u8; OUTPUT_BYTES]?;
    let len = respond(work, &input, &mut out)?;
    rt.stdout().write_all(&out[..len])?;
    Ok(())
}
