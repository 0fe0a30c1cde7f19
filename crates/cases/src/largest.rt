// The largest domains from scratch.
ghost use Rattle.std.specs.Prelude.{◌≡◌, count_by, nat_eq};

use crate::outcome::{Outcome, print_line};
use crate::words::{Group, Line};
use catalog::Catalog;
use catalog::supports::wiped_out;
use scratch::largest_domains;

// What the result list holds before the call: no case has these domains.
const UNTOUCHED: u64 = 0x5555_5555_5555_5555;

// A call of `largest_domains`: the sizes, the indices, and how many entries the result list has.
#[derive(Clone, Copy)]
struct Request<'a> {
    sizes: &'a [usize],
    indices: &'a [usize],
    entries: usize,
}

fn asked<'a>(groups: &'a [Group<'_>]) -> Option<Request<'a>> {
    let [first, second, third] = groups else {
        return None;
    };
    match (
        first.word,
        second.word,
        third.word,
        third.numbers.as_slice(),
    ) {
        ("largest", "under", "into", [entries]) => Some(Request {
            sizes: &first.numbers,
            indices: &second.numbers,
            entries: *entries,
        }),
        _ => None,
    }
}

// How many entries of the list hold the value.
fn count_of(value: u64, list: &[u64]) -> usize
    ensures { result ≡ count_by (λ x. nat_eq x value) list.now }
{
    list.iter().filter(|entry| **entry == value).count()
}

fn answer<C: Catalog>(
    rt: &HostRuntime,
    catalog: &C,
    line: &Line<'_>,
    request: Request<'_>,
) -> anyhow::Result<()> {
    let text = line.text;
    print!(rt; "{text}:")?;
    let mut list = vec![in rt.alloc(); UNTOUCHED; request.entries]?;
    match largest_domains(catalog, request.sizes, request.indices, &mut list) {
        Ok(()) => {
            let count = request.sizes.len().min(list.len());
            let domains = &list[..count];
            for domain in domains {
                print!(rt; " 0x{domain:x}")?;
            }
            match wiped_out(domains, count) {
                Some(variable) => print!(rt; ", wiped out {variable}")?,
                None => print!(rt; ", wiped out none")?,
            }
        }
        Err(refusal) => print!(rt; " {refusal}")?,
    }
    let kept = count_of(UNTOUCHED, &list);
    println!(rt; ", kept {kept}")?;
    Ok(())
}

// Works each line out and prints it.
pub fn largest<C: Catalog>(
    rt: &HostRuntime,
    catalog: &C,
    lines: &[Line<'_>],
) -> anyhow::Result<()> {
    for line in lines {
        match asked(&line.groups) {
            Some(request) => answer(rt, catalog, line, request)?,
            None => print_line(rt, line, Outcome::Unreadable)?,
        }
    }
    Ok(())
}
