// The variables of an accepted sheet.
ghost use Rattle.std.specs.Prelude.{◌≡◌, ◌<◌, slice_index_or};
ghost use Rattle.sheet_format.specs.Value.{no_variable};
ghost use Rattle.sheet_format.specs.Decoding.{decode};

use sheet::Accepted;
use sheet_format::{Variable, word};

// The variable e of the sheet: its record begins at the byte 8 + 8 * e, and has its size and its house number after the head.
#[tactic(auto, using(crate::proofs::Known::variable_read))]
pub(crate) fn variable_at(sheet: &Accepted<'_>, e: usize) -> Variable
    requires { e < sheet.now.found.variables }
    ensures { result ≡ slice_index_or (decode sheet.now.bytes.now).variables e no_variable }
{
    let start = 8 + 8 * e;
    Variable {
        size: word(sheet.bytes, start + 4),
        house: word(sheet.bytes, start + 6),
    }
}
