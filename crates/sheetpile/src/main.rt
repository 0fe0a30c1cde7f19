// For those who write sheets. Reads a sheet from standard input and prints, for the combined catalog of its constraints and the house's: a line for each
// constraint with its index, its ends and how many pairs inside the sizes it allows, or `outside` where an end is none of the sheet's variables;
// then the largest domains with all the constraints in that are not outside. A refused sheet prints its fault only.
#![tactic(auto)]

use catalog::Catalog;
use catalog::checks::check_constraint;
use runner::domain_line;
use scratch::{inside, largest_domains, pairs};
use sheet::Accepted;
use sheet_catalog::combined_of;
use sheet_catalog::sizes::Sizes;
use std::io;
use std::io::Read;

// A line for each constraint.
fn print_constraints<C: Catalog>(rt: &HostRuntime, catalog: &C, sizes: &[usize]) -> io::Result<()> {
    for p in 0..catalog.count() {
        if let Ok((a, b)) = check_constraint(catalog, sizes.len(), p) {
            let allowed = pairs(catalog, p, sizes[a], sizes[b]);
            println!(rt; "constraint {p} ends {a} {b} pairs {allowed}")?;
        } else if let Some((a, b)) = catalog.ends(p) {
            println!(rt; "constraint {p} ends {a} {b} outside")?;
        }
    }
    Ok(())
}

// A line for each variable with its largest domain.
fn print_domains<C: Catalog>(rt: &HostRuntime, catalog: &C, sizes: &[usize]) -> anyhow::Result<()> {
    let indices = inside(rt.alloc(), catalog, sizes.len())?;
    let mut list = [0; 32];
    match largest_domains(catalog, sizes, &indices, &mut list) {
        Ok(()) => {
            for (i, domain) in list.iter().enumerate().take(sizes.len()) {
                rt.println(domain_line(rt.alloc(), i, *domain)?)?;
            }
        }
        Err(refusal) => rt.println(refusal)?,
    }
    Ok(())
}

fn main(rt: HostRuntime) -> anyhow::Result<()> {
    let mut bytes = Vec::new(rt.alloc());
    rt.stdin().read_to_end(&mut bytes)?;
    match Accepted::new(&bytes) {
        Ok(sheet) => {
            let catalog = combined_of(&sheet);
            let sizes = Sizes::of(&sheet);
            print_constraints(&rt, &catalog, sizes.as_slice())?;
            print_domains(&rt, &catalog, sizes.as_slice())
        }
        Err(fault) => Ok(rt.println(fault)?),
    }
}
