// Two catalogs as one.
ghost use Rattle.std.specs.Prelude.{◌≡◌, ◌≤◌};
ghost use Rattle.catalog.specs.Joined.{joined, joined_lawful};

use crate::Catalog;

// The constraints of the first catalog, then those of the second; what comes past 128 is dropped.
#[derive(Drop)]
pub struct Joined<A, B> {
    pub first: A,
    pub second: B,
}

impl<A: Catalog, B: Catalog> Catalog for Joined<A, B> {
    ghost meaning = { λ s. joined (A.Catalog.meaning s.first) (B.Catalog.meaning s.second) };

    ghost lawful = { λ s. joined_lawful (A.Catalog.meaning s.first) (B.Catalog.meaning s.second) (A.Catalog.lawful s.first) (B.Catalog.lawful s.second) };

    fn count(&self) -> usize {
        (self.first.count() + self.second.count()).min(128)
    }

    fn ends(&self, p: usize) -> Option<(usize, usize)> {
        let of_first = self.first.count();
        if p < of_first {
            self.first.ends(p)
        } else if p < 128 {
            self.second.ends(p - of_first)
        } else {
            None
        }
    }

    fn allows(&self, p: usize, x: usize, y: usize) -> bool {
        let of_first = self.first.count();
        if p < of_first {
            self.first.allows(p, x, y)
        } else {
            p < 128 && self.second.allows(p - of_first, x, y)
        }
    }
}
