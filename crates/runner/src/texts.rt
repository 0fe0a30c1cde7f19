// The text of a run.
ghost use Rattle.std.specs.Prelude.{◌≡◌, ◌++◌, [], IfOk, OnOk, string_bytes, vec_items};
ghost use Rattle.runner.specs.Lines.{domain_line, domains_text, ended, move_line, moves_text, report_text};

use crate::faults::RunFault;
use crate::reports::Report;
use bits::Values;
use network::Change;
use sheet::Move;
use std::alloc::{AllocError, Global};

// A move: its word, the index, and how many values went or came back and the wiped-out variable or `-`; of a refused one, `no` and the number.
pub fn move_line(
    heap: Global,
    m: Move,
    outcome: Result<Change, RunFault>,
) -> Result<String, AllocError>
    ensures { IfOk result (λ t. string_bytes t ≡ move_line m outcome) }
{
    match outcome {
        Ok(change) => format!(in heap; "{m} {change}"),
        Err(fault) => format!(in heap; "{m} {fault}"),
    }
}

// adds a line and its newline
fn add_line(text: &mut String, line: String) -> Result<(), AllocError>
    ensures { OnOk result (string_bytes text.new ≡ string_bytes text.old ++ ended (string_bytes line)) }
{
    text.push_str(line.as_str())?;
    text.push_str("\n")
}

// adds a line for each move
fn add_moves(
    heap: Global,
    text: &mut String,
    moves: &[Move],
    outcomes: &[Result<Change, RunFault>],
) -> Result<(), AllocError>
    ensures { OnOk result (string_bytes text.new ≡ string_bytes text.old ++ moves_text moves.now outcomes.now) }
{
    for (m, outcome) in moves.iter().zip(outcomes) {
        add_line(text, move_line(heap, *m, *outcome)?)?;
    }
    Ok(())
}

// adds a line for each variable
fn add_domains(heap: Global, text: &mut String, domains: &[u64]) -> Result<(), AllocError>
    ensures { OnOk result (string_bytes text.new ≡ string_bytes text.old ++ domains_text 0 domains.now) }
{
    for (variable, domain) in domains.iter().enumerate() {
        add_line(text, domain_line(heap, variable, *domain)?)?;
    }
    Ok(())
}

// What is printed of a run: a line for each move, then one for each variable.
pub fn report_text(heap: Global, report: &Report) -> Result<String, AllocError>
    ensures { IfOk result (λ t. string_bytes t ≡ report_text report.now) }
{
    let mut text = String::new(heap);
    add_moves(heap, &mut text, &report.moves, &report.outcomes)?;
    add_domains(heap, &mut text, &report.domains)?;
    Ok(text)
}

// A variable: `at`, its number, and its values in order, or `none`.
pub fn domain_line(heap: Global, variable: usize, domain: u64) -> Result<String, AllocError>
    ensures { IfOk result (λ t. string_bytes t ≡ domain_line variable domain) }
{
    let values = Values(domain);
    format!(in heap; "at {variable}{values}")
}
