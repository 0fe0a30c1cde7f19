// Sets, printed.
ghost use Rattle.std.specs.Prelude.{◌≡◌, Some, ◌++◌};
ghost use Rattle.bits.specs.Text.{value_in, values_text};

use crate::has;
use std::fmt;

// The values of a set in order, each after a blank; ` none` for the empty set.
// This is only how a set prints: the public functions take and give a set as a plain `u64`, and their signatures stay.
#[derive(Clone, Copy)]
pub struct Values(pub u64);

impl fmt::Display for Values {
    ghost output = { λ v. Some (values_text v.0) };

    fn fmt<W: fmt::Write>(&self, f: &mut fmt::Formatter<W>) -> fmt::Result {
        if self.0 == 0 {
            return write!(f, " none");
        }
        for x in 0..64 {
            if has(self.0, x) {
                write!(f, " {x}")?;
            }
        }
        Ok(())
    }
}
