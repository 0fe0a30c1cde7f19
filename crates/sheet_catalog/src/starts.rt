// Where the constraints of an accepted sheet begin.
ghost use Rattle.std.specs.Prelude.{◌≡◌, ℕ, ◌<◌, ◌≤◌, length, drop};
ghost use Rattle.std.specs.Option.{option_map};
ghost use Rattle.sheet_format.specs.Reading.{reading};
ghost use Rattle.sheet_catalog.specs.Meant.{sheet_in};
ghost use Rattle.sheet_catalog.specs.StartsAt.{StartsAt};
ghost use Rattle.sheet_catalog.specs.Viewed.{meant, constraint_read};

use crate::view::{Constraint, constraint_in};
use sheet::{Accepted, read_record};
use sheet_format::word;

// Where each constraint of the sheet begins, one after the other.
pub(crate) fn starts_of(sheet: &Accepted<'_>) -> [u32; 96]
    ensures wide { length result ≡ 96 }
    ensures begun { (p : ℕ) → p < sheet.now.found.constraints → StartsAt sheet.now.bytes.now (sheet_in sheet.now.bytes.now) result p }
{
    let mut starts = [0; 96];
    let mut place = sheet.found.constraints_at;
    for start in &mut starts[..sheet.found.constraints as usize] {
        *start = place;
        place += word(sheet.bytes, place as usize) as u32;
    }
    starts
}

// The constraint that the record at a place holds.
pub(crate) fn constraint_at(bytes: &[u8], start: u32) -> Option<Constraint<'_>>
    requires { start ≤ length bytes.now }
    ensures { option_map meant result ≡ constraint_read (reading (drop start bytes.now) start) }
{
    let (found, _) = read_record(&bytes[start as usize..], start).ok()?;
    constraint_in(found)
}
