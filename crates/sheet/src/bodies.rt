// What a body may say.
ghost use Rattle.std.specs.Prelude.{◌≡◌, ◌==◌, ◌*◌, ◌/◌, ◌^◌, length, nat_lt};
ghost use Rattle.std.specs.List.{list_any, list_all};
ghost use Rattle.std.specs.Simd.{first_chunks};
ghost use Rattle.sheet_format.specs.Numbers.{number8};
ghost use Rattle.sheet_format.specs.Verdict.{ends_good};

use sheet_format::{Variable, row};

// an earlier variable has this house number
pub(crate) fn house_used(variables: &[Variable], house: u16) -> bool
    ensures { result ≡ list_any (λ v. v.house == house) variables.now }
{
    variables.iter().any(|v| v.house == house)
}

// a row has no bit at or above the size
#[tactic(auto, using(crate::proofs::Chunks::fits_wide, crate::proofs::Chunks::fits_shift))]
fn row_fits(row: u64, size: u16) -> bool
    ensures { result ≡ nat_lt row (2 ^ size) }
{
    size >= 64 || row >> size == 0
}

// no row, of eight bytes each, has a bit at or above the size
pub(crate) fn rows_good(rows: &[u8], size: u16) -> bool
    ensures { result ≡ list_all (λ bytes. nat_lt (number8 bytes 0) (2 ^ size)) (first_chunks 8 (length rows.now / 8) rows.now) }
{
    let (rows, _) = rows.as_chunks::<8>();
    rows.iter().all(|bytes| row_fits(row(bytes, 0), size))
}

// The ends of a constraint are two different variables out of n. They come apart, as two bytes of a sum's body and as two fields of the public
// record of a table: a struct of both would be made for this call alone.
pub(crate) fn ends_good(n: usize, left: u8, right: u8) -> bool
    ensures { result ≡ ends_good n left right }
{
    (left as usize) < n && (right as usize) < n && left != right
}
