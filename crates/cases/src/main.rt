//! Asks for the answer to each file of a table, and compares it with the answer that the table has.
//! A line of the table has a name, a file in hexadecimal and the answer, with tabs between.
#![tactic(auto)]

use answers::ask::answer;
use anyhow::Context;
use std::alloc::Global;
use std::io::{BufRead, BufReader};

/// The value of a hexadecimal digit.
fn digit(b: u8) -> Option<u8> {
    match b {
        b'0'..=b'9' => Some(b - b'0'),
        b'a'..=b'f' => Some(b - b'a' + 10),
        _ => None,
    }
}

/// The bytes that a hexadecimal text says.
// Kept: with chunks of two a last digit that stands alone, which is read and left out here, would need a case of its own.
fn bytes_of(heap: Global, hex: &str) -> anyhow::Result<Vec<u8>> {
    let mut bytes = Vec::new(heap);
    let mut high = None;
    for b in hex.bytes() {
        let value = digit(b).context("not a hexadecimal digit")?;
        high = match high {
            None => Some(value),
            Some(sixteens) => {
                bytes.push(value | (sixteens & 15) << 4)?;
                None
            }
        };
    }
    Ok(bytes)
}

/// Whether the answer to the file of a line is the line's.
fn agrees(heap: Global, line: &str) -> anyhow::Result<bool> {
    let (_name, rest) = line.split_once('\t').context("a line without a file")?;
    let (hex, wanted) = rest.split_once('\t').context("a line without an answer")?;
    let bytes = bytes_of(heap, hex)?;
    let given = answer(heap, &bytes)?.to_string(heap)?;
    Ok(given.as_str() == wanted)
}

fn main(rt: HostRuntime) -> anyhow::Result<()> {
    let mut passed: u32 = 0;
    let mut failed: u32 = 0;
    for line in BufReader::new(rt.alloc(), rt.stdin())?.lines(rt.alloc()) {
        let line = line?;
        if agrees(rt.alloc(), line.as_str())? {
            passed = passed.saturating_add(1);
        } else {
            failed = failed.saturating_add(1);
            println!(rt; "otherwise answered: {line}")?;
        }
    }
    println!(rt; "{passed} passed, {failed} failed")?;
    Ok(())
}
