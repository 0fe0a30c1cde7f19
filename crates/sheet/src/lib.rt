// Sheets: reading one record, the check of the whole, the moves of a checked sheet, and writing one.
#![tactic(auto)]

mod accepted;
mod bodies;
mod calls;
mod checking;
mod copying;
mod formula;
mod moves;
mod progress;
mod reader;
mod sheet_move;
mod writer;

pub use accepted::Accepted;
pub use calls::{Call, write};
pub use checking::check;
pub use copying::{RewriteFault, rewrite};
pub use formula::Formula;
pub use moves::moves_of;
pub use reader::{Part, Record, read_record};
pub use sheet_move::Move;
pub use writer::Writer;
