// A run of a sheet: its moves made on a network, one after another, and what is printed of it.
#![tactic(auto)]

mod faults;
mod outcomes;
mod reports;
mod running;
mod sheets;
mod texts;

pub use faults::{MoveFault, RunFault};
pub use outcomes::outcome_of;
pub use reports::Report;
pub use running::moving::run_moves;
pub use sheets::{listing, run_sheet};
pub use texts::{domain_line, move_line, report_text};
