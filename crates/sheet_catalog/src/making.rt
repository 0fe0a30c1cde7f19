// Making a catalog over a sheet's bytes.
ghost use Rattle.std.specs.Prelude.{◌≡◌, if◌then◌else◌, Some, None, nat_lt};
ghost use Rattle.std.specs.Option.{option_map};
ghost use Rattle.sheet_catalog.specs.Meant.{constraint_at, sheet_in};
ghost use Rattle.sheet_catalog.specs.Viewed.{meant};

use crate::SheetCatalog;
use crate::starts::{constraint_at, starts_of};
use crate::view::Constraint;
use sheet::Accepted;

impl<'a> SheetCatalog<'a> {
    // The catalog over a checked sheet. Finds where each constraint begins.
    pub fn of(sheet: &Accepted<'a>) -> SheetCatalog<'a>
        ensures { result.bytes.now ≡ sheet.now.bytes.now }
    {
        SheetCatalog {
            bytes: sheet.bytes,
            count: sheet.found.constraints as usize,
            starts: starts_of(sheet),
        }
    }

    // The catalog over any bytes, which it checks.
    pub fn new(bytes: &'a [u8]) -> SheetCatalog<'a>
        ensures { result.bytes.now ≡ bytes.now }
    {
        match Accepted::new(bytes) {
            Ok(sheet) => SheetCatalog::of(&sheet),
            Err(_) => SheetCatalog {
                bytes,
                count: 0,
                starts: [0; 96],
            },
        }
    }

    // The constraint p, where there is one.
    #[tactic(auto, using(crate::proofs::ReadBack::found_there))]
    pub(crate) fn constraint(&self, p: usize) -> Option<Constraint<'a>>
        ensures { option_map meant result ≡ (if nat_lt p self.now.count then Some (constraint_at (sheet_in self.now.bytes.now) p) else None) }
    {
        if p >= self.count {
            return None;
        }
        constraint_at(self.bytes, self.starts[p])
    }
}
