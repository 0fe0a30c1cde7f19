// What is printed of a line.
use crate::words::Line;
use network::Answer;
use std::{fmt, io};

// What came of a line.
#[derive(Clone, Copy)]
pub enum Outcome {
    Answer(Answer),
    // a call for whose answer there is no room
    NotMade,
    // are all entries of the buffers as they were lent, and those that no change may write
    AsLent(bool, bool),
    Count(usize),
    Unreadable,
}

// An answer, in words.
#[derive(Clone, Copy)]
struct InWords(Answer);

impl fmt::Display for InWords {
    fn fmt<W: fmt::Write>(&self, f: &mut fmt::Formatter<W>) -> fmt::Result {
        match self.0 {
            Answer::Opened => write!(f, "opened"),
            Answer::Changed(change) => write!(f, "{change}"),
            Answer::Domain(domain) => write!(f, "0x{domain:x}"),
            Answer::Shown(shown) => write!(f, "{shown}"),
            Answer::Justified(Some(why)) => {
                let constraint = why.constraint;
                let time = why.time;
                write!(f, "by {constraint} since {time}")
            }
            Answer::Wiped(Some(variable)) => write!(f, "{variable}"),
            Answer::Justified(None) | Answer::Wiped(None) => write!(f, "none"),
            Answer::Refused(refusal) => write!(f, "{refusal}"),
        }
    }
}

impl fmt::Display for Outcome {
    fn fmt<W: fmt::Write>(&self, f: &mut fmt::Formatter<W>) -> fmt::Result {
        match *self {
            Outcome::Answer(answer) => {
                let answer = InWords(answer);
                write!(f, "{answer}")
            }
            Outcome::NotMade => write!(f, "not made"),
            Outcome::AsLent(whole, past) => write!(f, "{whole}, past 128 and 2048 {past}"),
            Outcome::Count(count) => write!(f, "{count}"),
            Outcome::Unreadable => write!(f, "unreadable"),
        }
    }
}

// Prints a line again, with what came of it; a title as it is.
pub fn print_line(rt: &HostRuntime, line: &Line<'_>, outcome: Outcome) -> io::Result<()> {
    let text = line.text;
    if line.is_title() {
        println!(rt; "{text}")
    } else {
        println!(rt; "{text}: {outcome}")
    }
}
