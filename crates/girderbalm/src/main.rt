//! Reads a plan file from standard input, and prints the answer to it.
#![tactic(auto)]

use answers::ask::answer;
use std::io::Read;

/// How much of the input is read. The longest file of a plan has 28,936 bytes, and what stands behind one byte more does not
/// change the answer.
const LIMIT: u64 = 65_536;

fn main(rt: HostRuntime) -> anyhow::Result<()> {
    let mut input = Vec::new(rt.alloc());
    rt.stdin().take(LIMIT).read_to_end(&mut input)?;
    rt.println(answer(rt.alloc(), &input)?)?;
    Ok(())
}
