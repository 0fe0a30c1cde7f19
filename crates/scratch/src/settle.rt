// Values without support are put out until every value has its supports.
ghost use Rattle.std.specs.Prelude.{◌≡◌, ℕ, ◌<◌, ◌≤◌, length};
ghost use Rattle.arcs.specs.Family.{Largest};
ghost use Rattle.bits.specs.Bits.{domains_of, has_bit};
ghost use Rattle.scratch.specs.Rows.{arcs_of_rows};
ghost use Rattle.scratch.specs.Settling.{Placed, Revised, Swept, stays};

use crate::arc::Arc;

impl Arc {
    // The values in the set `near` that have a support in the set `far`. Those with a support are gathered from nothing: a set from which the others
    // are taken one after the other has each row wait for the one before.
    #[tactic(auto, using(bits::proofs::Bitwise::has_past, bits::proofs::Bitwise::has_and, bits::proofs::Bitwise::has_of_zero))]
    fn supported(&self, near: u64, far: u64) -> u64
        ensures { (x : ℕ) → has_bit result x ≡ stays self.now near far x }
    {
        let mut found = 0;
        for (x, row) in self.rows.iter().enumerate() {
            if *row & far != 0 {
                found = bits::with(found, x);
            }
        }
        near & found
    }

    // Puts the values without support out of the near variable's domain, and says whether there were any.
    #[tactic(auto, using(crate::proofs::Sweeping::revised_made))]
    fn revise(&self, domains: &mut [u64]) -> bool
        requires near { self.now.near < length domains.old }
        requires far { self.now.far < length domains.old }
        ensures { Revised self.now domains.old domains.new result }
    {
        let before = domains[self.near];
        let stay = self.supported(before, domains[self.far]);
        domains[self.near] = stay;
        stay != before
    }
}

// Revises each arc that is kept and whose far variable is in `stale`, and gives the set of the variables that lost values.
fn pass(arcs: &[Option<Arc>], stale: u64, domains: &mut [u64]) -> u64
    requires placed { Placed arcs.now (length domains.old) }
    requires few { length domains.old ≤ 64 }
    ensures { Swept arcs.now stale (length arcs.now) domains.old domains.new result }
{
    let mut next = 0;
    // By place, as the arcs are told apart: with `arcs.iter().flatten()` the loop has no place to go by, and the proof did not close.
    for place in arcs {
        if let Some(arc) = place {
            if bits::has(stale, arc.far) && arc.revise(domains) {
                next = bits::with(next, arc.near);
            }
        }
    }
    next
}

// Puts values out until each one has a support under every arc.
pub(crate) fn settle(arcs: &[Option<Arc>], domains: &mut [u64])
    requires placed { Placed arcs.now (length domains.old) }
    requires few { length domains.old ≤ 64 }
    ensures { Largest (arcs_of_rows arcs.now) (domains_of domains.old) (domains_of domains.new) }
{
    let mut stale = u64::MAX;
    while stale != 0 {
        stale = pass(arcs, stale, domains);
    }
}
