// Reads a sheet from standard input, makes its moves on a network, and prints what came of each move and the domains after them.
#![tactic(auto)]

use anyhow::anyhow;
use runner::listing;
use std::io::Read;

fn main(rt: HostRuntime) -> anyhow::Result<()> {
    let mut sheet = Vec::new(rt.alloc());
    rt.stdin().read_to_end(&mut sheet)?;
    let Ok(text) = listing(rt.alloc(), &sheet) else {
        return Err(anyhow!("no memory for the run"));
    };
    rt.print(text)?;
    Ok(())
}
