// What can go wrong in a run.
ghost use Rattle.std.specs.Prelude.{◌≡◌, Some};
ghost use Rattle.runner.specs.Faults.{fault_number, fault_byte, fault_before};
ghost use Rattle.runner.specs.Lines.{fault_text};
ghost use Rattle.runner.specs.declared.faults.RunFault.TheVariants.{Sheet as OfSheet, Move as OfMove, Memory as NoMemory};

use catalog::refusal::Refusal;
use sheet_format::SheetFault;
use std::alloc::AllocError;
use std::fmt;

// A refused move: how many moves came before it, and why it was refused. No `Counted<Refusal>`: this type is public with these fields, and a
// `Counted` counts records of a sheet, in a `u32`.
#[derive(Clone, Copy, PartialEq, Eq, Debug)]
pub struct MoveFault {
    pub before: usize,
    pub refusal: Refusal,
}

// What can go wrong in a run: the sheet is refused, which ends it; a move is refused, which does not; memory is wanting.
#[derive(Clone, Copy, PartialEq, Eq, Debug)]
pub enum RunFault {
    Sheet(SheetFault),
    Move(MoveFault),
    Memory,
}

impl RunFault {
    // The number of its cause, by which a sheet's fault or a refusal is known. Want of memory has none.
    pub fn number(self) -> Option<u8>
        ensures { result ≡ fault_number self }
    {
        match self {
            RunFault::Sheet(fault) => Some(fault.number()),
            RunFault::Move(fault) => Some(fault.refusal.number()),
            RunFault::Memory => None,
        }
    }

    // The byte of the sheet at which it stands, where the sheet is refused.
    pub fn byte(self) -> Option<u32>
        ensures { result ≡ fault_byte self }
    {
        match self {
            RunFault::Sheet(fault) => Some(fault.byte()),
            RunFault::Move(_) | RunFault::Memory => None,
        }
    }

    // How many records of a refused sheet came before it, or how many moves before a refused one.
    pub fn before(self) -> Option<usize>
        ensures { result ≡ fault_before self }
    {
        match self {
            RunFault::Sheet(fault) => Some(fault.records() as usize),
            RunFault::Move(fault) => Some(fault.before),
            RunFault::Memory => None,
        }
    }
}

// What is printed of it: a sheet's fault and a refusal as they print themselves.
impl fmt::Display for RunFault {
    ghost output = { λ fault. Some (fault_text fault) };

    fn fmt<W: fmt::Write>(&self, f: &mut fmt::Formatter<W>) -> fmt::Result {
        match self {
            RunFault::Sheet(fault) => write!(f, "{fault}"),
            RunFault::Move(fault) => {
                let refusal = fault.refusal;
                write!(f, "{refusal}")
            }
            RunFault::Memory => write!(f, "no memory for the run"),
        }
    }
}

// The conversions are written out: a derived one has no contract, and each of these says which fault a `?` or an `into` makes.
impl From<SheetFault> for RunFault {
    ghost from_gives = { λ x y. y ≡ OfSheet x };

    fn from(x: SheetFault) -> RunFault {
        RunFault::Sheet(x)
    }
}

impl From<MoveFault> for RunFault {
    ghost from_gives = { λ x y. y ≡ OfMove x };

    fn from(x: MoveFault) -> RunFault {
        RunFault::Move(x)
    }
}

impl From<AllocError> for RunFault {
    ghost from_gives = { λ _ y. y ≡ NoMemory };

    fn from(_e: AllocError) -> RunFault {
        Self::Memory
    }
}
