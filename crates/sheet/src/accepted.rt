// A sheet that the check accepts.
ghost use Rattle.std.specs.Prelude.{◌≡◌, ℕ, ◌<◌, Ok, MatchResult, slice_index};
ghost use Rattle.sheet_format.specs.Verdict.{verdict};

use crate::checking::check;
use sheet_format::{SheetFault, Summary};

// The bytes of a sheet that the check accepts, and what they hold. By the law of sheets they are the encoding of one valid sheet.
#[derive(Clone, Copy)]
pub struct Accepted<'a> {
    pub bytes: &'a [u8],
    pub found: Summary,
    ghost low: { (k : ℕ) → slice_index bytes.now k < 256 },
    ghost accepted: { Ok found ≡ verdict bytes.now },
}

impl<'a> Accepted<'a> {
    // The sheet in these bytes, or its first fault.
    pub fn new(bytes: &'a [u8]) -> Result<Accepted<'a>, SheetFault>
        ensures { MatchResult result (λ sheet. sheet.bytes.now ≡ bytes.now) (λ fault. Err fault ≡ verdict bytes.now) }
    {
        let found = check(bytes)?;
        Ok(Accepted { bytes, found })
    }
}
