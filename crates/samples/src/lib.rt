// Small catalogs, for samples and trials.
#![tactic(auto)]

ghost use Rattle.std.specs.Prelude.{◌≡◌};
ghost use Rattle.samples.specs.Small.{meaning_of, sample_lawful};

use catalog::Catalog;

mod chain;
pub mod ladder;

pub use chain::chain_sheet;

// Catalogs of two constraints each.
#[derive(Clone, Copy)]
pub enum Sample {
    // variables 0 and 1, then 1 and 2: the second value is larger by 1 to 63
    Chain,
    // variables 0 and 1, twice: x <= y, and x != y
    Ordered,
    // variables 0 and 1, twice: x < y, and x > y
    Crossed,
}

impl Catalog for Sample {
    ghost meaning = { λ s. meaning_of s };

    ghost lawful = { λ s. sample_lawful s };

    fn count(&self) -> usize {
        2
    }

    fn ends(&self, p: usize) -> Option<(usize, usize)> {
        if p >= 2 {
            return None;
        }
        match self {
            Sample::Chain => Some((p, p + 1)),
            Sample::Ordered | Sample::Crossed => Some((0, 1)),
        }
    }

    fn allows(&self, p: usize, x: usize, y: usize) -> bool {
        if p >= 2 || x >= 64 || y >= 64 {
            return false;
        }
        match (self, p) {
            (Sample::Chain, _) => x + 1 <= y && y <= x + 63,
            (Sample::Ordered, 0) => x <= y,
            (Sample::Ordered, _) => x != y,
            (Sample::Crossed, 0) => x < y,
            (Sample::Crossed, _) => x > y,
        }
    }
}
