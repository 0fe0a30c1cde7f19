// What a list of calls is drawn from: sizes, times, calls, buffers and questions, the same for the same seed. It serves the trials alone.
#![tactic(auto)]

mod draws;

pub use draws::{Draws, Shape};
