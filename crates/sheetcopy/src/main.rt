// Copies a sheet from standard input to standard output, record by record, through a writer. Of a refused sheet it prints what the check finds.
#![tactic(auto)]

use sheet::{RewriteFault, rewrite};
use std::io::{Read, Write};

fn main(rt: HostRuntime) -> anyhow::Result<()> {
    let mut sheet = Vec::new(rt.alloc());
    rt.stdin().read_to_end(&mut sheet)?;
    let mut buffer = Vec::from_elem(rt.alloc(), 0, sheet.len())?;
    match rewrite(&sheet, &mut buffer) {
        Ok(length) => rt.stdout().write_all(&buffer[..length])?,
        Err(RewriteFault::Sheet(fault)) => rt.println(fault)?,
        Err(RewriteFault::Write(fault)) => rt.println(fault.number())?,
    }
    Ok(())
}
