// The two solvers that trials compare, a network and the solver of `acdc2`, called and asked in the same words. It serves the trials alone.
#![tactic(auto)]

mod borrowed;
pub mod both;
pub mod checks;
pub mod first;
pub mod second;
