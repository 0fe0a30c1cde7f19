// Puts the sheets of a table of cases into buffers by `sheet::rewrite`, and prints how many bytes there are or the fault, and a checksum of the buffer. A line
// is a name, a colon, the length of the buffer, which is full of 238 at first, and the sheet's bytes as in the cases of the check.
use crate::calls::{buffer_of, checksum, print_answers};
use crate::checking::sheet_of;
use anyhow::Context;
use sheet::{RewriteFault, rewrite};
use sheet_format::SheetFault;

fn print_fault(
    rt: &HostRuntime,
    name: &str,
    fault: SheetFault,
    buffer: &[u8],
) -> anyhow::Result<()> {
    let sum = checksum(buffer);
    println!(rt; "{name}: {fault}; {sum}")?;
    Ok(())
}

pub fn try_case(rt: &HostRuntime, name: &str, text: &str) -> anyhow::Result<()> {
    let (size, bytes) = text.split_once(' ').context("a case has no sheet")?;
    let sheet = sheet_of(rt.alloc(), bytes)?;
    let mut buffer = buffer_of(rt.alloc(), size.parse::<u32>()? as usize)?;
    match rewrite(&sheet, &mut buffer) {
        Ok(long) => print_answers(rt, name, &[Ok(long)], &buffer),
        Err(RewriteFault::Write(fault)) => print_answers(rt, name, &[Err(fault)], &buffer),
        Err(RewriteFault::Sheet(fault)) => print_fault(rt, name, fault, &buffer),
    }
}
