// Incremental arc consistency with justifications, on plain data.
#![tactic(auto)]

mod fault;
mod fifo;
mod propagate;
mod release;
mod revise;
mod state;
mod value;
mod values;

pub use fault::LoadFault;
pub use fifo::Queue;
pub use state::Engine;
