// A catalog that is only lent, itself a catalog.
ghost use Rattle.std.specs.Prelude.{◌≡◌, ◌≤◌};

use catalog::Catalog;

#[derive(Drop)]
pub(crate) struct Borrowed<'a, C> {
    pub catalog: &'a C,
}

impl<C: Catalog> Catalog for Borrowed<'_, C> {
    ghost meaning = { λ s. C.Catalog.meaning s.catalog.now };

    ghost lawful = { λ s. C.Catalog.lawful s.catalog.now };

    fn count(&self) -> usize {
        self.catalog.count()
    }

    fn ends(&self, p: usize) -> Option<(usize, usize)> {
        self.catalog.ends(p)
    }

    fn allows(&self, p: usize, x: usize, y: usize) -> bool {
        self.catalog.allows(p, x, y)
    }
}
