// The moves of a sheet, read straight from its bytes.
ghost use Rattle.std.specs.Prelude.{◌≡◌, map, IfOk};
ghost use Rattle.sheet_format.specs.Decoding.{decode};
ghost use Rattle.sheet.specs.Moves.{move_of, move_by_kind};

use crate::Accepted;
use crate::sheet_move::Move;
use sheet_format::{Kind, word};
use std::alloc::{AllocError, Global};

// The move that a record is, where the check has seen one.
#[tactic(auto, using(crate::proofs::Places::no_add))]
fn move_in(bytes: &[u8; 6]) -> Move
    ensures { result ≡ move_by_kind bytes.now }
{
    let index = word(bytes, 4);
    match Kind::try_from(word(bytes, 2)) {
        Ok(Kind::Add) => Move::Add(index),
        _ => Move::Retract(index),
    }
}

// The moves that these records are.
fn moves_in(heap: Global, records: &[[u8; 6]]) -> Result<Vec<Move>, AllocError>
    ensures { IfOk result (λ v. v.items ≡ map move_by_kind records.now) }
{
    records.iter().map(move_in).collect(heap)
}

// The moves of a checked sheet, in their order.
#[tactic(auto, using(crate::proofs::Places::fit_at))]
pub fn moves_of(heap: Global, sheet: &Accepted<'_>) -> Result<Vec<Move>, AllocError>
    ensures { IfOk result (λ v. map move_of v.items ≡ (decode sheet.now.bytes.now).moves) }
{
    let begin = sheet.found.moves_at as usize;
    let (records, _) = sheet.bytes[begin..].as_chunks::<6>();
    moves_in(heap, &records[..sheet.found.moves as usize])
}
