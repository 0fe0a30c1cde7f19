// Why a writer of sheets refuses a call.
ghost use Rattle.std.specs.Prelude.{◌≡◌};
ghost use Rattle.sheet_format.specs.Writing.{write_number};
ghost use Rattle.sheet_format.specs.declared.writing.WriteFault.TheVariants.{Format};

use crate::faults::Cause;

// Why a record is not written: the format refuses it, or it does not fit into the buffer or into a sheet with the end after it, or the writer is
// ended or abandoned.
#[derive(Clone, Copy, PartialEq, Eq, Debug)]
pub enum WriteFault {
    Format(Cause),
    ShortBuffer,
    Closed,
}

impl WriteFault {
    // The number by which the fault is known.
    pub fn number(self) -> u8
        ensures { result ≡ write_number self }
    {
        match self {
            WriteFault::Format(cause) => cause.number(),
            WriteFault::ShortBuffer => 42,
            WriteFault::Closed => 43,
        }
    }
}

// Written out, as the conversions into a sheet's fault are: a derived one has no contract.
impl From<Cause> for WriteFault {
    ghost from_gives = { λ x y. y ≡ Format x };

    fn from(x: Cause) -> WriteFault {
        WriteFault::Format(x)
    }
}
