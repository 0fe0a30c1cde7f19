// Makes the calls of a table of cases by `sheet::write`, all on one buffer. A line is a name, a colon, the length of the buffer, and the calls. The buffer
// is full of 238 at first.
use crate::calls::{buffer_of, calls_of, case_of, print_answers};
use crate::reading::read_back;
use anyhow::Context;
use sheet::write;

pub fn try_case(rt: &HostRuntime, name: &str, text: &str) -> anyhow::Result<()> {
    let heap = rt.alloc();
    let (size, lines) = case_of(heap, text)?;
    let calls = calls_of(heap, &lines)?;
    let mut buffer = buffer_of(heap, size)?;
    let mut answers = Vec::from_elem(heap, Ok(0), calls.len())?;
    write(&calls, &mut answers, &mut buffer);
    read_back(&calls, &answers, &buffer).context("what was written is read back")?;
    print_answers(rt, name, &answers, &buffer)
}
