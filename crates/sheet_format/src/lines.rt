// The lines that say what the check of a sheet found, each as a string: both functions are public and promise that string, for those who ask for
// it. A fault and what an accepted sheet holds print themselves, and one who only prints needs neither.
ghost use Rattle.std.specs.Prelude.{◌≡◌, IfOk, string_bytes};
ghost use Rattle.sheet_format.specs.Lines.{fault_line, accepted_line};

use crate::{SheetFault, Summary};
use std::alloc::{AllocError, Global};

// A refused sheet: the number of the cause, and the byte.
pub fn fault_line(heap: Global, fault: SheetFault) -> Result<String, AllocError>
    ensures { IfOk result (λ t. string_bytes t ≡ fault_line fault) }
{
    fault.to_string(heap)
}

// An accepted sheet: how many variables, constraints and moves it has.
pub fn accepted_line(heap: Global, found: Summary) -> Result<String, AllocError>
    ensures { IfOk result (λ t. string_bytes t ≡ accepted_line found) }
{
    found.to_string(heap)
}
