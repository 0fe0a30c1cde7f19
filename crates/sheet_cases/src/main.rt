// Tries the cases of sheets on standard input, one a line with its name. An empty line ends each part: sheets that are checked, calls of a writer on one
// buffer, calls that are each lent a buffer of their own, and sheets that are rewritten.
#![tactic(auto)]

use anyhow::{Context, anyhow};
use std::io::{BufRead, BufReader};

mod calls;
mod checking;
mod copying;
mod lending;
mod reading;
mod writing;

fn try_case(rt: &HostRuntime, part: u32, name: &str, text: &str) -> anyhow::Result<()> {
    match part {
        0 => checking::try_case(rt, name, text),
        1 => writing::try_case(rt, name, text),
        2 => lending::try_case(rt, name, text),
        3 => copying::try_case(rt, name, text),
        _ => Err(anyhow!("a line follows the last part")),
    }
}

fn main(rt: HostRuntime) -> anyhow::Result<()> {
    let mut part: u32 = 0;
    for line in BufReader::new(rt.alloc(), rt.stdin())?.lines(rt.alloc()) {
        let line = line?;
        if line.is_empty() {
            part = part.wrapping_add(1);
            continue;
        }
        let (name, text) = line.split_once(':').context("a line has no name")?;
        try_case(&rt, part, name, text)?;
    }
    Ok(())
}
