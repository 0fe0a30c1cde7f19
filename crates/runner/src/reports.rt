// What a run gives.
use crate::faults::RunFault;
use network::Change;
use sheet::Move;

// The moves of a run, what came of each, how many were refused, and the domain of each variable after them.
#[derive(Drop)]
pub struct Report {
    pub moves: Vec<Move>,
    pub outcomes: Vec<Result<Change, RunFault>>,
    pub refused: usize,
    pub domains: Vec<u64>,
}
