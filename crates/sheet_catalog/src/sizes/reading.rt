// Making sizes: of a list, or of a sheet.
ghost use Rattle.std.specs.Prelude.{◌≡◌, ℕ, ◌<◌, IfOk, None, length, slice_index};
ghost use Rattle.std.specs.Result.{result_err};
ghost use Rattle.catalog.specs.Causes.{sizes_refusal};
ghost use Rattle.sheet_format.specs.Decoding.{decode};
ghost use Rattle.sheet_catalog.specs.Meant.{sheet_in};
ghost use Rattle.sheet_catalog.specs.Placed.{size_of_house, SizesOf};
ghost use Rattle.sheet_catalog.specs.Sizes.{listed};

use crate::sizes::Sizes;
use crate::variables::variable_at;
use catalog::checks::check_sizes;
use catalog::refusal::Refusal;
use sheet::Accepted;
use std::array;

// the size of the variable whose house number is h
#[tactic(auto, using(crate::proofs::Known::many, crate::proofs::Placing::house_nowhere))]
fn size_of_house(sheet: &Accepted<'_>, h: usize) -> usize
    ensures { result ≡ size_of_house (decode sheet.now.bytes.now).variables h }
{
    // A loop: of `map` and `find` over the variables' numbers the proof did not close, since the definition goes through the decoded list.
    for e in 0..sheet.found.variables as usize {
        let variable = variable_at(sheet, e);
        if variable.house as usize == h {
            return variable.size as usize;
        }
    }
    0
}

// the sizes by house numbers
fn sizes_in(sheet: &Accepted<'_>) -> [usize; 32]
    ensures wide { length result ≡ 32 }
    ensures each { (h : ℕ) → h < 32 → slice_index result h ≡ size_of_house (decode sheet.now.bytes.now).variables h }
{
    array::from_fn(|h| size_of_house(sheet, h))
}

impl Sizes {
    // These sizes, or why a network takes no such variables.
    pub fn new(list: &[usize]) -> Result<Sizes, Refusal>
        ensures refused { result_err result ≡ sizes_refusal list.now }
        ensures listed { IfOk result (λ sizes. listed sizes ≡ list.now) }
    {
        check_sizes(list)?;
        let mut sizes = [0; 32];
        sizes[..list.len()].copy_from_slice(list);
        Ok(Sizes {
            sizes,
            count: list.len(),
        })
    }

    // The sizes that the sheet gives.
    #[tactic(auto, using(crate::proofs::Known::sizes_at))]
    pub fn of(sheet: &Accepted<'_>) -> Sizes
        ensures { SizesOf (sheet_in sheet.now.bytes.now) (listed result) }
    {
        Sizes {
            sizes: sizes_in(sheet),
            count: sheet.found.variables as usize,
        }
    }

    // The sizes as a list, which a network takes.
    pub fn as_slice(&self) -> &[usize]
        ensures listed { result.now ≡ listed self.now }
        ensures good { sizes_refusal result.now ≡ None }
    {
        &self.sizes[0..self.count]
    }
}
