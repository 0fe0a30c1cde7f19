// What the engine knows of the catalog: each constraint is asked for once, when it is first needed, and kept until the next opening.
ghost use Rattle.std.specs.Prelude.{◌≡◌, ℕ, ◌&&◌, false, Some, slice_index};
ghost use Rattle.bits.specs.Bits.{has_bit};
ghost use Rattle.catalog.specs.Meaning.{allowed, ends_of};
ghost use Rattle.domains.specs.Model.{is_present, within};
ghost use Rattle.network.specs.Served.{Stands};
ghost use Rattle.network.specs.Performs.{Learnt};

use super::Network;
use catalog::Catalog;

impl<C: Catalog> Network<C> {
    // The pairs that the constraint allows inside the sizes of these two variables.
    fn rows(&self, constraint: usize, left: usize, right: usize) -> [u64; 64]
        ensures { (x y : ℕ) → has_bit (slice_index result x) y ≡ (within self.now.state.engine.constraints left x && (within self.now.state.engine.constraints right y && allowed (C.Catalog.meaning self.now.catalog) constraint x y)) }
    {
        let engine = &self.state.engine;
        catalog::supports::rows(
            &self.catalog,
            constraint,
            engine.size(left),
            engine.size(right),
        )
    }

    // Loads the constraint, which lies between these two variables, unless it is known already.
    pub(super) fn know(&mut self, constraint: usize, left: usize, right: usize)
        requires ends { Some (left, right) ≡ ends_of (C.Catalog.meaning self.old.catalog) constraint }
        requires absent { is_present self.old.state.engine.constraints constraint ≡ false }
        ensures catalog { self.new.catalog ≡ self.old.catalog }
        ensures learnt { Stands C.Catalog.meaning self.old → Learnt (C.Catalog.meaning self.old.catalog) constraint self.old.state self.new.state }
    {
        if !self.state.known[constraint] {
            let rows = self.rows(constraint, left, right);
            let loaded = self.state.engine.load(constraint, left, right, &rows);
            self.state.known[constraint] = loaded.is_ok();
        }
    }
}
