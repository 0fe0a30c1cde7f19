// Counting the pairs that a constraint allows, and naming the constraints between given variables.
ghost use Rattle.std.specs.Prelude.{◌≡◌, ℕ, ◌*◌, ◌≤◌, min, IfOk};
ghost use Rattle.scratch.specs.Named.{named};
ghost use Rattle.scratch.specs.Counts.{beside_count, pair_count, is_inside};

use catalog::Catalog;
use catalog::checks::check_constraint;
use std::alloc::{AllocError, Global};

// how many values below the size the constraint p allows beside x
fn beside<C: Catalog>(catalog: &C, p: usize, x: usize, size: usize) -> usize
    ensures count { result ≡ beside_count (C.Catalog.meaning catalog.now) p x size }
    ensures few { result ≤ size }
{
    (0..size).filter(|y| catalog.allows(p, x, *y)).count()
}

// how many pairs of values below these sizes the constraint p allows
#[tactic(auto, using(crate::proofs::Counted::pairs_none, crate::proofs::Counted::pairs_more))]
fn pairs_below<C: Catalog>(catalog: &C, p: usize, left_size: usize, right_size: usize) -> usize
    requires left { left_size ≤ 64 }
    requires right { right_size ≤ 64 }
    ensures { result ≡ pair_count (C.Catalog.meaning catalog.now) p right_size left_size }
{
    // A loop: with `map` and `sum` the bound that `sum` asks did not close.
    let mut n = 0;
    for x in 0..left_size {
        n += beside(catalog, p, x, right_size);
    }
    n
}

// How many pairs of values below these sizes the constraint p allows; there are 64 values at most.
pub fn pairs<C: Catalog>(catalog: &C, p: usize, left_size: usize, right_size: usize) -> usize
    ensures { result ≡ pair_count (C.Catalog.meaning catalog.now) p (min right_size 64) (min left_size 64) }
{
    pairs_below(catalog, p, left_size.min(64), right_size.min(64))
}

// Is p a constraint whose ends both lie below n?
fn lies_inside<C: Catalog>(catalog: &C, p: usize, n: usize) -> bool
    ensures { result ≡ is_inside (C.Catalog.meaning catalog.now) n p }
{
    check_constraint(catalog, n, p).is_ok()
}

// The indices of the constraints whose ends both lie below n.
pub fn inside<C: Catalog>(heap: Global, catalog: &C, n: usize) -> Result<Vec<usize>, AllocError>
    ensures { IfOk result (λ v. (q : ℕ) → named v.items q ≡ is_inside (C.Catalog.meaning catalog.now) n q) }
{
    // A loop: of `filter` and `collect` it did not close which indices the list then names.
    let mut indices = Vec::new(heap);
    for p in 0..catalog.count() {
        if lies_inside(catalog, p, n) {
            indices.push(p)?;
        }
    }
    Ok(indices)
}
