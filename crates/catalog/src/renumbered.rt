// A catalog with its variables renumbered.
ghost use Rattle.std.specs.Prelude.{◌≡◌};
ghost use Rattle.catalog.specs.Renumbered.{renumbered, renumbered_lawful, is_numbering};

use crate::Catalog;
use crate::numbering::Numbering;

// The constraints of a catalog, with each end `e` turned into entry `e` of the numbering.
#[derive(Drop)]
pub struct Renumbered<C> {
    pub catalog: C,
    pub numbering: Numbering,
}

impl<C: Catalog> Catalog for Renumbered<C> {
    ghost meaning = { λ s. renumbered s.numbering.to (C.Catalog.meaning s.catalog) };

    ghost lawful = { λ s. renumbered_lawful s.numbering.to (is_numbering s.numbering) (C.Catalog.meaning s.catalog) (C.Catalog.lawful s.catalog) };

    fn count(&self) -> usize {
        self.catalog.count()
    }

    fn ends(&self, p: usize) -> Option<(usize, usize)> {
        let (a, b) = self.catalog.ends(p)?;
        Some((self.numbering.at(a), self.numbering.at(b)))
    }

    fn allows(&self, p: usize, x: usize, y: usize) -> bool {
        self.catalog.allows(p, x, y)
    }
}
