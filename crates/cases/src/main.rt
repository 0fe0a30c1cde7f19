// Reads cases from standard input and prints what comes of each: calls on a network, and the largest domains worked out from scratch. Each line is printed again
// with a colon and its answer, `unreadable` where it cannot be read; one whose first word is `#` is a title, and is printed as it is.
// A title cannot be the first line of a block: it would be taken for the line that names the catalog, and the others would be unreadable.
//
// Cases stand in blocks, parted by an empty line. The first line of a block names what is done and on which catalog, and is answered by the count of its
// constraints. Of a `network` the calls of a block are one list, performed in one go, each lent its own part of the buffers; in `scratch` each line is worked out
// by itself. A number is decimal, or hexadecimal after `0x`. A set of values is a number: bit x says whether x is in it.
//
//     network CATALOG, or scratch CATALOG, where the catalog is
//         chain, ordered, crossed       a sample
//         ladder N                      so many constraints
//         house                         the constraints of the house
//         house numbered N..            these renumbered: 32 numbers, or none where each variable keeps its own
//         chain-house numbered N..      the chain renumbered, then the house
//         ladder-house N numbered N..   a ladder, then the house renumbered
//         tables                        the lines that come next, up to 48:
//     table LEFT RIGHT rows SET..       for each value of the left end those of the right end beside it; answered by its index
//
//     largest SIZE.. under INDEX.. into N   the largest domains, written into a list of N entries: these, the wiped-out variable, and how many entries are kept
//
//     open SIZE.. at TIME               the calls on a network
//     add INDEX, retract INDEX          each perhaps with `lent N N`, of the buffers for what waits and what returns; all of them where nothing is said
//     domain VARIABLE, shown VARIABLE VALUE, why VARIABLE VALUE, wiped
//     lengths WAITING RETURNING ANSWERS how many entries the two buffers and the list of answers have: 128, 2048 and enough where no line says it. It tells whether
//                                       all entries of the buffers were in the end as they were lent, and whether those past 128 and 2048 were
//                                       too. These lengths are those of the whole block: a second such line is answered as well, but the first one counts
//     after VARIABLE                    a domain, asked of the network that comes back: of a variable below 32, else it is unreadable
#![tactic(auto)]

mod call;
mod largest;
mod listed;
mod outcome;
mod tables;
mod words;

use catalog::Catalog;
use catalog::house::HouseCatalog;
use catalog::joined::Joined;
use catalog::numbering::Numbering;
use catalog::renumbered::Renumbered;
use largest::largest;
use listed::listed;
use outcome::{Outcome, print_line};
use samples::Sample;
use samples::ladder::Ladder;
use std::io::read_to_string;
use words::{Group, Line};

// What is done with the lines of a block.
#[derive(Clone, Copy)]
enum Task {
    Network,
    Scratch,
}

fn task_of(head: &Line<'_>) -> Option<Task> {
    let first = head.groups.first()?;
    match (first.word, first.numbers.as_slice()) {
        ("network", []) => Some(Task::Network),
        ("scratch", []) => Some(Task::Scratch),
        _ => None,
    }
}

// A block: its first line, the tables that come next, and the other lines.
#[derive(Clone, Copy)]
struct Block<'a, 'b> {
    head: &'a Line<'b>,
    tables: &'a [Line<'b>],
    lines: &'a [Line<'b>],
}

// Says so of each line of a block whose first line cannot be read.
fn unreadable(rt: &HostRuntime, block: Block<'_, '_>) -> anyhow::Result<()> {
    print_line(rt, block.head, Outcome::Unreadable)?;
    for line in block.lines {
        print_line(rt, line, Outcome::Unreadable)?;
    }
    Ok(())
}

// Does on a catalog what a block says.
fn on<C: Catalog + Drop>(rt: &HostRuntime, block: Block<'_, '_>, catalog: C) -> anyhow::Result<()> {
    let Some(task) = task_of(block.head) else {
        return unreadable(rt, block);
    };
    print_line(rt, block.head, Outcome::Count(catalog.count()))?;
    for (p, table) in block.tables.iter().enumerate() {
        print_line(rt, table, Outcome::Count(p))?;
    }
    match task {
        Task::Network => listed(rt, catalog, block.lines),
        Task::Scratch => largest(rt, &catalog, block.lines),
    }
}

fn on_tables(rt: &HostRuntime, block: Block<'_, '_>) -> anyhow::Result<()> {
    let count = tables::count(block.lines).min(block.lines.len());
    let (tables, lines) = block.lines.split_at(count);
    let catalog = tables::combined(tables);
    let block = Block {
        tables,
        lines,
        ..block
    };
    on(rt, block, catalog)
}

fn on_plain(rt: &HostRuntime, block: Block<'_, '_>, name: &Group<'_>) -> anyhow::Result<()> {
    match (name.word, name.numbers.as_slice()) {
        ("chain", []) => on(rt, block, Sample::Chain),
        ("ordered", []) => on(rt, block, Sample::Ordered),
        ("crossed", []) => on(rt, block, Sample::Crossed),
        ("ladder", [count]) => on(rt, block, Ladder { count: *count }),
        ("house", []) => on(rt, block, HouseCatalog),
        ("tables", []) => on_tables(rt, block),
        _ => unreadable(rt, block),
    }
}

fn on_numbered(
    rt: &HostRuntime,
    block: Block<'_, '_>,
    name: &Group<'_>,
    numbering: Numbering,
) -> anyhow::Result<()> {
    let house = Renumbered {
        catalog: HouseCatalog,
        numbering,
    };
    match (name.word, name.numbers.as_slice()) {
        ("house", []) => on(rt, block, house),
        ("ladder-house", [count]) => {
            let first = Ladder { count: *count };
            let second = house;
            on(rt, block, Joined { first, second })
        }
        ("chain-house", []) => {
            let first = Renumbered {
                catalog: Sample::Chain,
                numbering,
            };
            let second = HouseCatalog;
            on(rt, block, Joined { first, second })
        }
        _ => unreadable(rt, block),
    }
}

// Of 32 numbers, or of none where each variable keeps its own.
fn numbering(group: &Group<'_>) -> Option<Numbering> {
    match (group.word, group.numbers.as_slice()) {
        ("numbered", []) => Some(Numbering::identity()),
        ("numbered", numbers) => Numbering::new(numbers),
        _ => None,
    }
}

// Does what the lines of a block say, on the catalog that the first one names.
fn perform(rt: &HostRuntime, lines: &[Line<'_>]) -> anyhow::Result<()> {
    let [head, lines @ ..] = lines else {
        return Ok(());
    };
    let block = Block {
        head,
        tables: &[],
        lines,
    };
    match head.groups.as_slice() {
        [_, name] => on_plain(rt, block, name),
        [_, name, numbers] => match numbering(numbers) {
            Some(numbering) => on_numbered(rt, block, name, numbering),
            None => unreadable(rt, block),
        },
        _ => unreadable(rt, block),
    }
}

fn perform_text(rt: &HostRuntime, text: &str) -> anyhow::Result<()> {
    let heap = rt.alloc();
    let lines: Vec<Line<'_>> = text
        .split('\n')
        .map(|line| Line::new(heap, line))
        .try_collect(heap)?;
    perform(rt, &lines)
}

fn main(rt: HostRuntime) -> anyhow::Result<()> {
    let text = read_to_string(rt.alloc(), rt.stdin())?;
    for block in text.trim_end().split("\n\n") {
        perform_text(&rt, block)?;
    }
    Ok(())
}
