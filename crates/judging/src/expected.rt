// What is due after a call, worked out from scratch.
use crate::book::Book;
use crate::trouble::Trouble;
use catalog::Catalog;
use scratch::largest_domains;
use std::alloc::Global;

// The largest domains.
pub fn domains<C: Catalog>(heap: Global, catalog: &C, book: &Book) -> Result<Vec<u64>, Trouble> {
    let indices = book.indices(heap)?;
    let mut domains = vec![in heap; 0; book.sizes.len()]?;
    match largest_domains(catalog, &book.sizes, &indices, &mut domains) {
        Ok(()) => Ok(domains),
        Err(_) => Err(Trouble::Scratch),
    }
}

// How many values are in the domains before and not after, or the other way round.
pub fn differing(before: &[u64], after: &[u64]) -> u32 {
    let mut n: u32 = 0;
    for (a, b) in before.iter().zip(after) {
        n = n.saturating_add((*a ^ *b).count_ones());
    }
    n
}
