// The constraints of a sheet, its variables by their house numbers, and those of the house, as one catalog.
ghost use Rattle.std.specs.Prelude.{◌≡◌};
ghost use Rattle.catalog.specs.House.{house};
ghost use Rattle.catalog.specs.Joined.{joined};
ghost use Rattle.catalog.specs.Renumbered.{renumbered};
ghost use Rattle.sheet_catalog.specs.Meant.{meaning_of, sheet_in};
ghost use Rattle.sheet_catalog.specs.Combined.{combined_of};

use crate::SheetCatalog;
use crate::numbers::numbering_of;
use catalog::house::HouseCatalog;
use catalog::joined::Joined;
use catalog::numbering::Numbering;
use catalog::renumbered::Renumbered;
use sheet::Accepted;

// The constraints of the sheet with its variables renumbered, then those of the house.
pub fn combined_of<'a>(sheet: &Accepted<'a>) -> Joined<Renumbered<SheetCatalog<'a>>, HouseCatalog>
    ensures { joined (renumbered result.first.numbering.to (meaning_of (sheet_in result.first.catalog.bytes.now))) house ≡ combined_of sheet.now.bytes.now }
{
    let first = Renumbered {
        catalog: SheetCatalog::of(sheet),
        numbering: numbering_of(sheet),
    };
    let second = HouseCatalog;
    Joined { first, second }
}

// The same of any bytes. Bytes that the check refuses give no constraint of a sheet and leave each variable its number, as an empty sheet would.
#[tactic(auto, using(crate::proofs::Known::refused_combined))]
pub fn combined(bytes: &[u8]) -> Joined<Renumbered<SheetCatalog<'_>>, HouseCatalog>
    ensures { joined (renumbered result.first.numbering.to (meaning_of (sheet_in result.first.catalog.bytes.now))) house ≡ combined_of bytes.now }
{
    match Accepted::new(bytes) {
        Ok(sheet) => combined_of(&sheet),
        Err(_) => Joined {
            first: Renumbered {
                catalog: SheetCatalog::new(&[]),
                numbering: Numbering::identity(),
            },
            second: HouseCatalog,
        },
    }
}
