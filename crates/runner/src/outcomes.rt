// What came of moves.
ghost use Rattle.std.specs.Prelude.{◌≡◌, count_by, is_err};
ghost use Rattle.runner.specs.Runs.{outcome};

use crate::faults::{MoveFault, RunFault};
use network::{Answer, Change};

// What came of the move that has so many before it, by the answer to it: a change, or its fault. An answer to another kind of call is none.
pub fn outcome_of(answer: Answer, before: usize) -> Option<Result<Change, RunFault>>
    ensures { result ≡ outcome before answer }
{
    match answer {
        Answer::Changed(change) => Some(Ok(change)),
        Answer::Refused(refusal) => Some(Err(MoveFault { before, refusal }.into())),
        _ => None,
    }
}

// How many moves were refused.
pub(crate) fn refusals<T, E>(outcomes: &[Result<T, E>]) -> usize
    ensures { result ≡ count_by is_err outcomes.now }
{
    outcomes.iter().filter(|outcome| outcome.is_err()).count()
}
