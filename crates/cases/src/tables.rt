// A catalog of tables, each on a line.
use crate::words::{Group, Line};
use catalog::joined::Joined;
use random::drawn::{Constraint, Tables};
use random::ends::Ends;
use random::table::Table;
use std::array;

fn ends(left: usize, right: usize) -> Option<Ends> {
    if left < 32 && right < 32 && left != right {
        Some(Ends { left, right })
    } else {
        None
    }
}

// A row for each value of the left end; those that are not given have no value.
fn rows(given: &[usize]) -> Option<Table> {
    if given.len() > 64 {
        return None;
    }
    Some(Table {
        rows: array::from_fn(|x| given.get(x).map_or(0, |row| *row as u64)),
    })
}

fn table(groups: &[Group<'_>]) -> Option<Constraint<Table>> {
    let [first, second] = groups else {
        return None;
    };
    match (first.word, first.numbers.as_slice(), second.word) {
        ("table", [left, right], "rows") => Some(Constraint {
            ends: ends(*left, *right)?,
            relation: rows(&second.numbers)?,
        }),
        _ => None,
    }
}

// what stands where there is no table
fn nothing() -> Constraint<Table> {
    Constraint {
        ends: Ends { left: 0, right: 1 },
        relation: Table { rows: [0; 64] },
    }
}

// Up to 24 of the lines, as many as are tables.
fn tables(lines: &[Line<'_>]) -> Tables {
    let constraints = array::from_fn(|p| {
        lines
            .get(p)
            .and_then(|line| table(&line.groups))
            .unwrap_or(nothing())
    });
    Tables {
        count: lines.len(),
        constraints,
    }
}

// How many of the lines are tables, before one is not; up to 48.
pub fn count(lines: &[Line<'_>]) -> usize {
    lines
        .iter()
        .take(48)
        .take_while(|line| table(&line.groups).is_some())
        .count()
}

// The tables that the lines are, up to 48.
pub fn combined(lines: &[Line<'_>]) -> Joined<Tables, Tables> {
    let (first, second) = lines.split_at(lines.len().min(24));
    Joined {
        first: tables(first),
        second: tables(second),
    }
}
