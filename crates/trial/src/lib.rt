// One list of calls, made on both solvers, with everything judged after each call. It serves the trials alone.
#![tactic(auto)]

mod trial;

pub use trial::list;
