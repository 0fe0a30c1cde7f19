// Trials on sheets: a sheet's own moves, made on a network and on another solver, both on a catalog over the sheet's bytes. After each move both are to have
// given the same answer and to have the same domains.
#![tactic(auto)]

mod mixed;
mod outcome;

use catalog::Catalog;
use mixed::MIXED;
use outcome::made;
use samples::chain_sheet;
use sheet::{Accepted, Move, moves_of};
use sheet_catalog::sizes::Sizes;
use sheet_catalog::{SheetCatalog, combined_of};
use std::io;

// A sheet, and the sizes of its variables in its own order.
#[derive(Clone, Copy)]
struct Case<'a> {
    name: &'static str,
    bytes: &'a [u8],
    sizes: &'a [usize],
}

// Makes the moves on that catalog and prints what came of them, or what is wrong.
fn make_moves<C: Catalog>(
    rt: &HostRuntime,
    catalog: &C,
    sizes: &[usize],
    moves: &[Move],
) -> io::Result<()> {
    match made(rt.alloc(), catalog, sizes, moves) {
        Ok(outcome) => outcome.print(rt, moves, sizes.len()),
        Err(trouble) => println!(rt; "{trouble:?}"),
    }
}

// Makes a sheet's moves on its own constraints alone, and on the combined catalog of these and the house's.
fn perform(rt: &HostRuntime, case: Case<'_>, sheet: &Accepted<'_>) -> io::Result<()> {
    let Case { name, sizes, .. } = case;
    let moves = moves_of(rt.alloc(), sheet)?;
    println!(rt; "{name}, its own constraints")?;
    make_moves(rt, &SheetCatalog::of(sheet), sizes, &moves)?;
    println!(rt; "{name}, the pile")?;
    make_moves(rt, &combined_of(sheet), Sizes::of(sheet).as_slice(), &moves)
}

fn main(rt: HostRuntime) -> io::Result<()> {
    let chain = chain_sheet();
    let cases = [
        Case {
            name: "chain",
            bytes: &chain,
            sizes: &[3, 3, 3],
        },
        Case {
            name: "mixed",
            bytes: &MIXED,
            sizes: &[4, 6, 5],
        },
    ];
    for case in cases {
        match Accepted::new(case.bytes) {
            Ok(sheet) => perform(&rt, case, &sheet)?,
            Err(fault) => rt.println(fault)?,
        }
    }
    Ok(())
}
