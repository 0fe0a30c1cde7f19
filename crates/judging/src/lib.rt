// What trials judge by: a book of what a list of calls has brought about and of the refusals that are due, what a solver tells, and whether that is right,
// from the definitions and from the largest domains from scratch. It serves the trials alone, and shares with the solvers that it judges only the catalogs,
// the sets of bits, the names of the causes of refusal and, below the computation from scratch, the rows of a constraint (`catalog::supports`), which the engine
// uses too. The wiped-out variable that is due is no matter of this crate: the trials work it out by the function of `catalog::supports` that the engine calls, so
// they compare of which domains it is asked; what it answers is proved by its contract.
#![tactic(auto)]

pub mod book;
mod clock;
pub mod expected;
pub mod judge;
pub mod met;
pub mod reported;
pub mod rests;
pub mod trouble;

pub use clock::LAST_TIME;
