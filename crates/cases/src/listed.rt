// A list of calls on a network, performed in one go.
use crate::call::call;
use crate::outcome::{Outcome, print_line};
use crate::words::Line;
use catalog::Catalog;
use catalog::refusal::Refusal;
use domains::Returning;
use network::{Answer, Call, Network, perform};
use std::alloc::{AllocError, Global};
use std::{array, slice};

// How many entries the buffers have, and how many there are for answers.
#[derive(Clone, Copy)]
struct Lengths {
    waiting: usize,
    returning: usize,
    answers: usize,
}

const ENOUGH: Lengths = Lengths {
    waiting: 128,
    returning: 2048,
    answers: usize::MAX,
};

// What a line of a list is.
#[derive(Clone, Copy)]
enum Entry<'a> {
    Call(Call<'a>),
    Lengths(Lengths),
    // a variable's domain, asked of the network that comes back
    After(usize),
    Unreadable,
}

fn entry_of<'a>(line: &'a Line<'_>) -> Entry<'a> {
    if let [group] = line.groups.as_slice() {
        match (group.word, group.numbers.as_slice()) {
            ("lengths", [waiting, returning, answers]) => {
                return Entry::Lengths(Lengths {
                    waiting: *waiting,
                    returning: *returning,
                    answers: *answers,
                });
            }
            ("after", [variable]) => return Entry::After(*variable),
            _ => {}
        }
    }
    match call(&line.groups) {
        Some(call) => Entry::Call(call),
        None => Entry::Unreadable,
    }
}

// The lengths of a list: those of the first line that says them.
fn lengths_of(entries: &[Entry<'_>]) -> Lengths {
    for entry in entries {
        if let Entry::Lengths(lengths) = *entry {
            return lengths;
        }
    }
    ENOUGH
}

// What each line of a list is, and the calls among them.
#[derive(Drop)]
struct List<'a> {
    entries: Vec<Entry<'a>>,
    calls: Vec<Call<'a>>,
}

fn list_of<'a>(heap: Global, lines: &'a [Line<'_>]) -> Result<List<'a>, AllocError> {
    let mut entries = Vec::new(heap);
    let mut calls = Vec::new(heap);
    for line in lines {
        let entry = entry_of(line);
        if let Entry::Call(call) = entry {
            calls.push(call)?;
        }
        entries.push(entry)?;
    }
    Ok(List { entries, calls })
}

// Buffers are full of what no change writes.
const MARK: u8 = 255;

const NOTHING: Returning = Returning {
    variable: MARK,
    value: MARK,
    time: 0,
};

// Do the entries past these stand as they were lent?
fn as_lent_past<T: Copy + PartialEq>(buffer: &[T], mark: T, past: usize) -> bool {
    buffer.iter().skip(past).all(|entry| *entry == mark)
}

// Do all entries of the buffers stand as they were lent, and do those past the ones that a change may write?
fn as_lent(waiting: &[u8], returning: &[Returning]) -> Outcome {
    let whole = as_lent_past(waiting, MARK, 0) && as_lent_past(returning, NOTHING, 0);
    let past = as_lent_past(waiting, MARK, 128) && as_lent_past(returning, NOTHING, 2048);
    Outcome::AsLent(whole, past)
}

// The domains of the variables that a network may have, or why it does not tell them.
fn domains_of<C: Catalog>(network: &Network<C>) -> [Answer; 32] {
    array::from_fn(|i| match network.domain(i) {
        Ok(domain) => Answer::Domain(domain),
        Err(refusal) => Answer::Refused(refusal),
    })
}

// What a list left.
#[derive(Drop)]
struct Left {
    answers: Vec<Answer>,
    as_lent: Outcome,
    // of the network that came back
    domains: [Answer; 32],
}

fn perform_calls<C: Catalog + Drop>(
    heap: Global,
    catalog: C,
    calls: &[Call<'_>],
    lengths: Lengths,
) -> Result<Left, AllocError> {
    let mut waiting = vec![in heap; MARK; lengths.waiting]?;
    let mut returning = vec![in heap; NOTHING; lengths.returning]?;
    let mut answers = vec![in heap; Answer::Opened; lengths.answers.min(calls.len())]?;
    let network = perform(catalog, calls, &mut answers, &mut waiting, &mut returning);
    Ok(Left {
        answers,
        as_lent: as_lent(&waiting, &returning),
        domains: domains_of(&network),
    })
}

// An answer, or what is printed where there is none.
fn answered(answer: Option<&Answer>, missing: Outcome) -> Outcome {
    match answer {
        Some(answer) => Outcome::Answer(*answer),
        None => missing,
    }
}

// What came of a line. A call takes the next one of the answers.
fn outcome_of(entry: Entry<'_>, answers: &mut slice::Iter<'_, Answer>, left: &Left) -> Outcome {
    match entry {
        Entry::Call(_) => answered(answers.next(), Outcome::NotMade),
        Entry::Lengths(_) => left.as_lent,
        Entry::After(variable) => answered(left.domains.get(variable), Outcome::Unreadable),
        Entry::Unreadable => Outcome::Unreadable,
    }
}

fn print_each(
    rt: &HostRuntime,
    lines: &[Line<'_>],
    entries: &[Entry<'_>],
    left: &Left,
) -> anyhow::Result<()> {
    let mut answers = left.answers.iter();
    for (line, entry) in lines.iter().zip(entries) {
        print_line(rt, line, outcome_of(*entry, &mut answers, left))?;
    }
    Ok(())
}

// Performs the calls of the lines, and prints what each answered.
pub fn listed<C: Catalog + Drop>(
    rt: &HostRuntime,
    catalog: C,
    lines: &[Line<'_>],
) -> anyhow::Result<()> {
    let heap = rt.alloc();
    let List { entries, calls } = list_of(heap, lines)?;
    let left = perform_calls(heap, catalog, &calls, lengths_of(&entries))?;
    print_each(rt, lines, &entries, &left)
}
