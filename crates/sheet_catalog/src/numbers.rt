// The numbering of variables that a sheet gives.
ghost use Rattle.std.specs.Prelude.{◌≡◌, ℕ, ◌<◌, length, slice_index};
ghost use Rattle.sheet_format.specs.Decoding.{decode};
ghost use Rattle.sheet_catalog.specs.Meant.{sheet_in};
ghost use Rattle.sheet_catalog.specs.Placed.{number_of, numbers_of};

use crate::variables::variable_at;
use catalog::numbering::Numbering;
use sheet::Accepted;
use std::array;

// the number that e gets
#[tactic(auto, using(crate::proofs::Known::many))]
fn number(sheet: &Accepted<'_>, e: usize) -> usize
    ensures { result ≡ number_of (decode sheet.now.bytes.now) e }
{
    if e < sheet.found.variables as usize {
        variable_at(sheet, e).house as usize
    } else {
        e
    }
}

// the numbers that 0 to 31 get
fn numbers(sheet: &Accepted<'_>) -> [usize; 32]
    ensures wide { length result ≡ 32 }
    ensures each { (e : ℕ) → e < 32 → slice_index result e ≡ number_of (decode sheet.now.bytes.now) e }
{
    array::from_fn(|e| number(sheet, e))
}

// Entry e is the house number of the sheet's variable e, and e itself past the sheet's variables.
#[tactic(auto, using(crate::proofs::Known::numbers_at))]
pub fn numbering_of(sheet: &Accepted<'_>) -> Numbering
    ensures { result.to ≡ numbers_of (sheet_in sheet.now.bytes.now) }
{
    Numbering::new(&numbers(sheet)).unwrap()
}

// The same of any bytes. For a sheet that the check refuses each entry is its own index.
#[tactic(auto, using(crate::proofs::Placing::own_numbers))]
pub fn numbering(bytes: &[u8]) -> Numbering
    ensures { result.to ≡ numbers_of (sheet_in bytes.now) }
{
    match Accepted::new(bytes) {
        Ok(sheet) => numbering_of(&sheet),
        Err(_) => Numbering::identity(),
    }
}
