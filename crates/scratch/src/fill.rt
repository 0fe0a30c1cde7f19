// The constraints named, asked of the catalog once for each pair of values and kept as arcs.
ghost use Rattle.std.specs.Prelude.{◌≡◌, ℕ, length, None};
ghost use Rattle.arcs.specs.Family.{within_sizes};
ghost use Rattle.bits.specs.Bits.{domains_of};
ghost use Rattle.catalog.specs.Causes.{constraint_refusal};
ghost use Rattle.scratch.specs.Filled.{Adds, Filled, Turned};
ghost use Rattle.scratch.specs.Named.{named};
ghost use Rattle.scratch.specs.Refused.{indices_refusal};
ghost use Rattle.scratch.specs.Rows.{Bounded};

use crate::arc::Arc;
use crate::request::Request;
use catalog::Catalog;

impl Arc {
    // The same constraint seen from its other end.
    fn turned(&self) -> Arc
        ensures { Turned self.now result }
    {
        Arc {
            near: self.far,
            far: self.near,
            rows: catalog::supports::turned(&self.rows),
        }
    }
}

impl<C: Catalog> Request<'_, C> {
    // Keeps the constraint `p` both ways, unless it is kept already. Its arcs are entries 2 * p and 2 * p + 1 of one list, and no pair: a pass
    // walks all arcs alike, in one loop, and what it says of an arc it says by the place.
    fn keep(&self, p: usize, arcs: &mut [Option<Arc>; 256])
        requires { constraint_refusal (C.Catalog.meaning self.now.catalog.now) (length self.now.sizes.now) p ≡ None }
        ensures { Adds (C.Catalog.meaning self.now.catalog.now) self.now.sizes.now p arcs.old arcs.new }
    {
        if arcs[2 * p].is_some() {
            return;
        }
        if let Some((a, b)) = self.catalog.ends(p) {
            let there = Arc {
                near: a,
                far: b,
                rows: catalog::supports::rows(self.catalog, p, self.sizes[a], self.sizes[b]),
            };
            arcs[2 * p] = Some(there);
            arcs[2 * p + 1] = Some(there.turned());
        }
    }

    // Each constraint that is named, kept both ways.
    pub(crate) fn fill(&self) -> [Option<Arc>; 256]
        requires { indices_refusal (C.Catalog.meaning self.now.catalog.now) (length self.now.sizes.now) self.now.indices.now ≡ None }
        ensures { Filled (C.Catalog.meaning self.now.catalog.now) self.now.sizes.now (named self.now.indices.now) result }
    {
        let mut arcs = [None; 256];
        for p in self.indices {
            self.keep(*p, &mut arcs);
        }
        arcs
    }
}

// Every value of every variable.
pub(crate) fn whole(sizes: &[usize], domains: &mut [u64])
    requires len { length domains.old ≡ length sizes.now }
    requires bounded { Bounded sizes.now }
    ensures { (i x : ℕ) → domains_of domains.new i x ≡ within_sizes sizes.now i x }
{
    // By index: with `domains.iter_mut().zip(sizes)` the proof did not close, since nothing is known of the domains after the loop.
    for (i, domain) in domains.iter_mut().enumerate() {
        *domain = bits::below(sizes[i]);
    }
}
