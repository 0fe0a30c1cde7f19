// Why a constraint is not loaded.

// The first cause that holds. Not `catalog::refusal::Refusal`, whose causes are a network's: it has none for two ends that are the same, nor is an end outside here
// one past the variables.
#[derive(Clone, Copy, PartialEq, Eq, Debug)]
pub enum LoadFault {
    // its index is not below 128
    NoSuchConstraint,
    AlreadyIn,
    // an end is not below 32
    EndOutside,
    SameEnds,
}
