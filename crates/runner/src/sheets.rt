// A sheet's moves, made on a network, and what is printed of them.
ghost use Rattle.std.specs.Prelude.{IfOk, MatchResult, string_bytes};
ghost use Rattle.sheet_format.specs.Verdict.{verdict};
ghost use Rattle.runner.specs.Listing.{Listing};
ghost use Rattle.runner.specs.Ran.{SheetRan, Stopped};

use crate::faults::RunFault;
use crate::reports::Report;
use crate::running::moving::run_moves;
use crate::texts::report_text;
use sheet::{Accepted, moves_of};
use sheet_catalog::combined_of;
use sheet_catalog::sizes::Sizes;
use std::alloc::{AllocError, Global};

// Makes the moves of a checked sheet on a network that is opened at time 0 on the combined catalog of its constraints and the house's, and asks for each domain.
fn run_accepted(heap: Global, sheet: &Accepted<'_>) -> Result<Report, AllocError>
    ensures { IfOk result (λ report. SheetRan sheet.now.bytes.now report) }
{
    let moves = moves_of(heap, sheet)?;
    run_moves(heap, combined_of(sheet), &Sizes::of(sheet), moves)
}

// The same of any bytes, which are checked once. A refused sheet gives its fault, and no move is made.
pub fn run_sheet(heap: Global, bytes: &[u8]) -> Result<Report, RunFault>
    ensures { MatchResult result (λ report. SheetRan bytes.now report) (λ fault. Stopped (verdict bytes.now) fault) }
{
    let sheet = Accepted::new(bytes)?;
    let report = run_accepted(heap, &sheet)?;
    Ok(report)
}

// What is printed of any bytes: the line of a refused sheet's fault, or a line for each move, in order, and then one for each variable.
pub fn listing(heap: Global, bytes: &[u8]) -> Result<String, AllocError>
    ensures { IfOk result (λ text. Listing bytes.now (string_bytes text)) }
{
    match run_sheet(heap, bytes) {
        Ok(report) => report_text(heap, &report),
        Err(RunFault::Memory) => Err(AllocError),
        Err(fault) => format!(in heap; "{fault}\n"),
    }
}
