// The largest arc-consistent domains from scratch; and how many pairs a constraint allows, and which constraints lie between the first variables.
#![tactic(auto)]

ghost use Rattle.std.specs.Prelude.{◌≡◌, length, None, MatchResult};
ghost use Rattle.scratch.specs.Refused.{refusal, refusal_number};
ghost use Rattle.catalog.specs.Number.{number_of};
ghost use Rattle.std.specs.Option.{option_map};
ghost use Rattle.scratch.specs.Written.{Written};
ghost use Rattle.std.specs.Result.{result_err};

use catalog::Catalog;
use catalog::refusal::Refusal;
use request::Request;

mod accept;
mod arc;
mod counting;
mod fill;
mod request;
mod settle;

pub use counting::{inside, pairs};

impl<C: Catalog> Request<'_, C> {
    // The work of a call that is not refused.
    fn write(&self, out: &mut [u64])
        requires { None ≡ refusal (C.Catalog.meaning self.now.catalog.now) self.now.sizes.now self.now.indices.now (length out.old) }
        ensures { Written (C.Catalog.meaning self.now.catalog.now) self.now.sizes.now self.now.indices.now out.old out.new }
    {
        let arcs = self.fill();
        let domains = &mut out[0..self.sizes.len()];
        fill::whole(self.sizes, domains);
        settle::settle(&arcs, domains);
    }
}

// Writes the largest arc-consistent domains under the constraints that `indices` names, for variables of these sizes, into the first entries of
// `out`, one for each variable: bit y for the value y.
pub fn largest_domains<C: Catalog>(
    catalog: &C,
    sizes: &[usize],
    indices: &[usize],
    out: &mut [u64],
) -> Result<(), Refusal>
    ensures refused { result_err result ≡ refusal (C.Catalog.meaning catalog.now) sizes.now indices.now (length out.old) }
    ensures number { option_map number_of (result_err result) ≡ refusal_number (C.Catalog.meaning catalog.now) sizes.now indices.now (length out.old) }
    ensures cases { MatchResult result (λ _. Written (C.Catalog.meaning catalog.now) sizes.now indices.now out.old out.new) (λ _. out.new ≡ out.old) }
{
    let request = Request {
        catalog,
        sizes,
        indices,
    };
    request.check(out.len())?;
    request.write(out);
    Ok(())
}
