// The checks that several calls make.
ghost use Rattle.std.specs.Prelude.{◌≡◌, ◌<◌, IfOk, Some};
ghost use Rattle.catalog.specs.Meaning.{ends_of};
ghost use Rattle.catalog.specs.Causes.{constraint_refusal, sizes_fit, sizes_refusal};
ghost use Rattle.std.specs.Result.{result_err};

use crate::Catalog;
use crate::refusal::Refusal;

// Is each size from 1 to 64?
fn sizes_fit(sizes: &[usize]) -> bool
    ensures { result ≡ sizes_fit sizes.now }
{
    sizes.iter().all(|s| (1..=64).contains(s))
}

// Are these sizes of variables: from 1 to 32 of them, each from 1 to 64?
pub fn check_sizes(sizes: &[usize]) -> Result<(), Refusal>
    ensures { result_err result ≡ sizes_refusal sizes.now }
{
    if sizes.is_empty() || sizes.len() > 32 {
        Err(Refusal::VariableCount)
    } else if sizes_fit(sizes) {
        Ok(())
    } else {
        Err(Refusal::DomainSize)
    }
}

// The two ends of the constraint `p`, if they are among the first `n` variables.
pub fn check_constraint<C: Catalog>(
    catalog: &C,
    n: usize,
    p: usize,
) -> Result<(usize, usize), Refusal>
    ensures refused { result_err result ≡ constraint_refusal (C.Catalog.meaning catalog.now) n p }
    ensures ends { IfOk result (λ e. (Some e ≡ ends_of (C.Catalog.meaning catalog.now) p) × (e.0 < n) × (e.1 < n)) }
{
    let Some((a, b)) = catalog.ends(p) else {
        return Err(Refusal::NoSuchConstraint);
    };
    if a < n && b < n {
        Ok((a, b))
    } else {
        Err(Refusal::EndOutside)
    }
}
