// The sheet format: its faults, those of writing, the kinds of records, the numbers in its bytes, and what the check of a sheet finds.
#![tactic(auto)]

mod faults;
mod found;
mod kinds;
mod lines;
mod numbers;
mod writing;

pub use faults::{
    Cause, Counted, Fault, FormatFault, RecordCause, RecordFault, SheetFault, after_records,
};
pub use found::{Summary, Variable};
pub use kinds::Kind;
pub use lines::{accepted_line, fault_line};
pub use numbers::{long, row, word};
pub use writing::WriteFault;
