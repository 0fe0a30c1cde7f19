// What a network needs of a sheet: its constraints as a catalog that reads them straight from the sheet's bytes, the numbering of its variables, their
// sizes, and its constraints combined with those of the house.
#![tactic(auto)]

ghost use Rattle.std.specs.Prelude.{◌≡◌, ℕ, ◌<◌, ◌≤◌, length, slice_index};
ghost use Rattle.sheet_catalog.specs.Meant.{meaning_of, sheet_in};
ghost use Rattle.sheet_catalog.specs.StartsAt.{StartsAt};
ghost use Rattle.sheet_catalog.specs.Lawfulness.{bytes_lawful};

use catalog::Catalog;

mod combining;
pub mod making;
pub mod numbers;
pub mod sizes;
mod starts;
mod variables;
mod view;

pub use combining::{combined, combined_of};

// The constraints of the sheet that the bytes hold, in the sheet's order; none where the check refuses the bytes. What a question needs is
// read from the bytes at the place where its constraint begins, which is known from the start. The places are an array and a count: the public
// type was `Copy` and must stay so, as an ArrayVec is not.
#[derive(Clone, Copy)]
pub struct SheetCatalog<'a> {
    bytes: &'a [u8],
    count: usize,
    starts: [u32; 96],
    ghost low: { (k : ℕ) → slice_index bytes.now k < 256 },
    ghost counted: { count ≡ length (sheet_in bytes.now).constraints },
    ghost few: { count ≤ 96 },
    ghost wide: { length starts ≡ 96 },
    ghost begun: { (p : ℕ) → p < count → StartsAt bytes.now (sheet_in bytes.now) starts p },
}

impl<'a> Catalog for SheetCatalog<'a> {
    ghost meaning = { λ s. meaning_of (sheet_in s.bytes.now) };

    ghost lawful = { λ s. bytes_lawful s.bytes.now s.low };

    fn count(&self) -> usize {
        self.count
    }

    #[tactic(auto, using(crate::proofs::ReadBack::good_there))]
    fn ends(&self, p: usize) -> Option<(usize, usize)> {
        let constraint = self.constraint(p)?;
        Some((constraint.left as usize, constraint.right as usize))
    }

    fn allows(&self, p: usize, x: usize, y: usize) -> bool {
        self.constraint(p)
            .is_some_and(|constraint| constraint.allows(x, y))
    }
}
