// What a trial may find.
use catalog::refusal::Refusal;
use std::alloc::{AllocError, AllocFailed};

#[derive(Clone, Copy, Debug)]
pub enum Trouble {
    // no memory: the trial says nothing
    Memory,
    // the largest domains from scratch were refused
    Scratch,
    // the second solver refused a call by another cause, or accepted it, or refused one that is to be accepted
    SecondCause,
    // the second solver has other domains than those from scratch
    SecondDomains,
    // the second solver has a value without a right justification
    SecondJustification,
    // the network refused a call that is to be accepted, or a question
    Refusal,
    // the network answered a change as if it were another call
    Answer,
    // the network refused an opening or a question by another cause, or accepted it
    OtherCause,
    // the network refused a call by another cause, or accepted it, or refused one that is to be accepted
    Cause,
    // the network has other domains than those from scratch
    Domains,
    // the network says of a value that it is shown, and leaves it out of the domain, or the other way round
    Shown,
    // the network counts other values
    Count,
    // the network names another variable as wiped out
    WipedOut,
    // the network has a value without a right justification
    Justification,
    // two justifications of the network have one time
    Times,
    // the network lost a justification that is to be kept
    Kept,
}

// The conversions are written out: a derived one would keep what it came from, and a trouble is a bare word.
impl From<AllocError> for Trouble {
    fn from(_: AllocError) -> Trouble {
        Trouble::Memory
    }
}

impl<T: Drop> From<AllocFailed<T>> for Trouble {
    fn from(_: AllocFailed<T>) -> Trouble {
        Trouble::Memory
    }
}

impl From<Refusal> for Trouble {
    fn from(_: Refusal) -> Trouble {
        Trouble::Refusal
    }
}
