// Is a computation from scratch refused?
ghost use Rattle.std.specs.Prelude.{◌≡◌, ℕ, length};
ghost use Rattle.scratch.specs.Refused.{indices_refusal, refusal};
ghost use Rattle.std.specs.Result.{result_err};

use crate::request::Request;
use catalog::Catalog;
use catalog::checks::{check_constraint, check_sizes};
use catalog::refusal::Refusal;

// Is each index one of a constraint between two of the first `n` variables?
#[tactic(auto, using(crate::proofs::Accepting::indices_pass, crate::proofs::Accepting::indices_stop, crate::proofs::Accepting::indices_end))]
fn check_indices<C: Catalog>(catalog: &C, n: usize, indices: &[usize]) -> Result<(), Refusal>
    ensures { result_err result ≡ indices_refusal (C.Catalog.meaning catalog.now) n indices.now }
{
    for p in indices {
        check_constraint(catalog, n, *p)?;
    }
    Ok(())
}

impl<C: Catalog> Request<'_, C> {
    // The first cause that refuses the request, where `entries` is the length of the result list.
    pub(crate) fn check(&self, entries: usize) -> Result<(), Refusal>
        ensures { result_err result ≡ refusal (C.Catalog.meaning self.now.catalog.now) self.now.sizes.now self.now.indices.now entries }
    {
        check_sizes(self.sizes)?;
        check_indices(self.catalog, self.sizes.len(), self.indices)?;
        if self.sizes.len() <= entries {
            Ok(())
        } else {
            Err(Refusal::ShortResult)
        }
    }
}
