// A catalog of as many constraints as are wanted, up to 128.
ghost use Rattle.std.specs.Prelude.{◌≡◌};
ghost use Rattle.samples.specs.Ladders.{ladder, ladder_lawful};

use catalog::Catalog;

// The constraint p says that the value of variable p % 31 lies below that of the next variable.
#[derive(Clone, Copy)]
pub struct Ladder {
    pub count: usize,
}

impl Catalog for Ladder {
    ghost meaning = { λ s. ladder s.count };

    ghost lawful = { λ s. ladder_lawful s.count };

    fn count(&self) -> usize {
        self.count.min(128)
    }

    fn ends(&self, p: usize) -> Option<(usize, usize)> {
        if p < self.count && p < 128 {
            Some((p % 31, p % 31 + 1))
        } else {
            None
        }
    }

    fn allows(&self, p: usize, x: usize, y: usize) -> bool {
        p < self.count && p < 128 && y < 64 && x < y
    }
}
