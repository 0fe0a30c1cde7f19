// Whether the solvers did what is due.
use acdc2::fault::Fault;
use catalog::refusal::Refusal;
use judging::trouble::Trouble;
use network::Change;

// Is a change the one that is due: the number of values that went or came back, and the wiped-out variable?
pub fn check_change(change: Change, due: Change) -> Result<(), Trouble> {
    if change.values != due.values {
        Err(Trouble::Count)
    } else if change.wiped != due.wiped {
        Err(Trouble::WipedOut)
    } else {
        Ok(())
    }
}

// Is the network's answer the one that is due: the change, or a refusal by that cause?
pub fn check_answer(
    answer: Result<Change, Refusal>,
    due: Result<Change, Refusal>,
) -> Result<(), Trouble> {
    match (answer, due) {
        (Ok(change), Ok(other)) => check_change(change, other),
        (Err(cause), Err(other)) if cause == other => Ok(()),
        _ => Err(Trouble::Cause),
    }
}

// Did the second solver do what is due: accept the call, or refuse it by that cause?
pub fn check_done(done: Result<(), Fault>, due: Option<Refusal>) -> Result<(), Trouble> {
    match (done, due) {
        (Err(Fault::Memory), _) => Err(Trouble::Memory),
        (Ok(()), None) => Ok(()),
        (Err(Fault::Refused(cause)), Some(other)) if cause == other => Ok(()),
        _ => Err(Trouble::SecondCause),
    }
}

// Did the network refuse an opening by the cause that is due?
pub fn check_refused(opened: Result<(), Refusal>, due: Result<(), Refusal>) -> Result<(), Trouble> {
    match (opened, due) {
        (Err(cause), Err(other)) if cause == other => Ok(()),
        _ => Err(Trouble::OtherCause),
    }
}

// Did the network refuse the three questions by the causes that are due, and answer the others?
pub fn check_unasked(
    refused: [Option<Refusal>; 3],
    due: [Option<Refusal>; 3],
) -> Result<(), Trouble> {
    if refused == due {
        Ok(())
    } else {
        Err(Trouble::OtherCause)
    }
}
