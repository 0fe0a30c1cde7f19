// Reads a sheet from standard input and prints what its check finds, in one line.
#![tactic(auto)]

use sheet::check;
use std::io::Read;

fn main(rt: HostRuntime) -> anyhow::Result<()> {
    let mut sheet = Vec::new(rt.alloc());
    rt.stdin().read_to_end(&mut sheet)?;
    match check(&sheet) {
        Ok(found) => rt.println(found)?,
        Err(fault) => rt.println(fault)?,
    }
    Ok(())
}
