// The supports of values: for each value of one end of a constraint, the set of the values of the other end that may stand beside it.
ghost use Rattle.std.specs.Prelude.{◌≡◌, ℕ, ◌&&◌, ◌==◌, nat_lt, slice_index};
ghost use Rattle.bits.specs.Bits.{has_bit, domains_of};
ghost use Rattle.catalog.specs.Meaning.{allowed};
ghost use Rattle.arcs.specs.WipedOut.{WipedOut};

use crate::Catalog;

// The values below `right_size` of the right end that the constraint `p` allows beside the value `x` of the left end, if that is below `left_size`.
#[tactic(auto, using(bits::proofs::Bitwise::has_of_zero))]
fn row<C: Catalog>(catalog: &C, p: usize, x: usize, left_size: usize, right_size: usize) -> u64
    ensures { (y : ℕ) → has_bit result y ≡ (nat_lt x left_size && (nat_lt y right_size && allowed (C.Catalog.meaning catalog.now) p x y)) }
{
    if x >= left_size {
        return 0;
    }
    let mut row = 0;
    // The number y is a value itself, of which the catalog is asked.
    for y in 0..right_size.min(64) {
        if catalog.allows(p, x, y) {
            row = bits::with(row, y);
        }
    }
    row
}

// The rows of the constraint `p`, for values of its ends below these sizes: entry x is the set of those that it allows beside the value x
// of its left end.
#[tactic(auto, using(bits::proofs::Bitwise::has_of_zero))]
pub fn rows<C: Catalog>(catalog: &C, p: usize, left_size: usize, right_size: usize) -> [u64; 64]
    ensures { (x y : ℕ) → has_bit (slice_index result x) y ≡ (nat_lt x left_size && (nat_lt y right_size && allowed (C.Catalog.meaning catalog.now) p x y)) }
{
    let mut rows = [0; 64];
    for (x, entry) in rows.iter_mut().enumerate() {
        *entry = row(catalog, p, x, left_size, right_size);
    }
    rows
}

// Which of the rows have the value `y`: those that share a value with the set of `y` alone, which is made once for all of them.
#[tactic(auto, using(bits::proofs::Bitwise::has_of_zero))]
fn column(rows: &[u64; 64], y: usize) -> u64
    ensures { (x : ℕ) → has_bit result x ≡ has_bit (slice_index rows.now x) y }
{
    let only = bits::with(0, y);
    let mut column = 0;
    for (x, row) in rows.iter().enumerate() {
        if *row & only != 0 {
            column = bits::with(column, x);
        }
    }
    column
}

// The same pairs from the other end: row y has x where row x has y.
pub fn turned(rows: &[u64; 64]) -> [u64; 64]
    ensures { (x y : ℕ) → has_bit (slice_index result y) x ≡ has_bit (slice_index rows.now x) y }
{
    let mut turned = [0; 64];
    for (y, entry) in turned.iter_mut().enumerate() {
        *entry = column(rows, y);
    }
    turned
}

// Has the variable no value? One that is not in the list has none.
fn is_empty(domains: &[u64], variable: usize) -> bool
    ensures { result ≡ (slice_index domains.now variable == 0) }
{
    domains.get(variable).copied().unwrap_or(0) == 0
}

// The lowest of the first n variables whose domain is empty, if there is one.
#[tactic(auto, using(crate::proofs::Emptiness::none_in, crate::proofs::Emptiness::one_in))]
pub fn wiped_out(domains: &[u64], n: usize) -> Option<usize>
    ensures { WipedOut (domains_of domains.now) n result }
{
    (0..n).find(|variable| is_empty(domains, *variable))
}
