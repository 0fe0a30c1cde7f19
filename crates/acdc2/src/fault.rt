// Why a retraction is not made.
ghost use Rattle.std.specs.Prelude.{◌≡◌};
ghost use Rattle.acdc2.specs.declared.fault.Fault.TheVariants.{Refused, Memory};

use catalog::refusal::Refusal;
use std::alloc::AllocError;

// It is refused, or memory is wanting.
#[derive(Clone, Copy)]
pub enum Fault {
    Refused(Refusal),
    Memory,
}

// The conversions are written out: a derived one has no contract, and `retract`'s tells the cause of a refusal.
impl From<Refusal> for Fault {
    ghost from_gives = { λ refusal fault. fault ≡ Refused refusal };

    fn from(refusal: Refusal) -> Fault {
        Fault::Refused(refusal)
    }
}

impl From<AllocError> for Fault {
    ghost from_gives = { λ _ fault. fault ≡ Memory };

    fn from(_: AllocError) -> Fault {
        Fault::Memory
    }
}
