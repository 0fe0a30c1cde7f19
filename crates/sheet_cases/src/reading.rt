// Reads back what accepted calls of a writer put into a buffer. A difference is an error.
use anyhow::{Context, anyhow};
use sheet::{Call, Formula, Part, Record, check, read_record, rewrite};
use sheet_format::{Summary, Variable, WriteFault};

fn is_heading(n: u16, body: &[u8]) -> bool {
    let [low, high] = n.to_le_bytes();
    body == [1, 0, low, high].as_slice()
}

fn is_variable(variable: Variable, body: &[u8]) -> bool {
    let [size_low, size_high] = variable.size.to_le_bytes();
    let [house_low, house_high] = variable.house.to_le_bytes();
    body == [size_low, size_high, house_low, house_high].as_slice()
}

fn is_formula(put: Formula, found: Formula) -> bool {
    put.m == found.m && put.k == found.k && put.lo == found.lo && put.hi == found.hi
}

fn is_sum(left: u8, right: u8, formula: Formula, body: &[u8]) -> bool {
    body.len() == 14
        && body[0] == left
        && body[1] == right
        && is_formula(formula, Formula::of_body(body))
}

fn are_rows(rows: &[u64], bytes: &[u8]) -> bool {
    let (found, odd) = bytes.as_chunks::<8>();
    odd.is_empty()
        && found.len() == rows.len()
        && rows
            .iter()
            .zip(found)
            .all(|(row, bytes)| *row == u64::from_le_bytes(*bytes))
}

fn is_index(index: u16, body: &[u8]) -> bool {
    body == index.to_le_bytes().as_slice()
}

// the record says what the call put
fn says(record: Record<'_>, call: Call<'_>) -> bool {
    match (call, record) {
        (Call::Heading(n), Record::Heading(body)) => is_heading(n, body),
        (Call::Variable(variable), Record::Variable(body)) => is_variable(variable, body),
        (
            Call::Sum {
                left,
                right,
                formula,
            },
            Record::Sum(body),
        ) => is_sum(left, right, formula, body),
        (
            Call::Table { left, right, rows },
            Record::Table {
                left: a,
                right: b,
                rows: found,
            },
        ) => left == a && right == b && are_rows(rows, found.bytes),
        (Call::Add(index), Record::Add(body)) => is_index(index, body),
        (Call::Retract(index), Record::Retract(body)) => is_index(index, body),
        (Call::End, Record::End(body)) => body.is_empty(),
        _ => false,
    }
}

// takes the record of an accepted call off what is left of the sheet
fn read_one<'a>(left: Part<'a>, call: Call<'_>, place: usize) -> anyhow::Result<Part<'a>> {
    let at = u32::try_from(left.place)?;
    let Ok((record, rest)) = read_record(left.bytes, at) else {
        return Err(anyhow!("a record is not whole"));
    };
    if says(record, call) && rest.place == place {
        Ok(rest)
    } else {
        Err(anyhow!("a record says something else"))
    }
}

// The records of the accepted calls stand in the sheet, one after the other, each up to the place that its call answered, and nothing else does. How many
// there are.
fn read_records(
    sheet: &[u8],
    calls: &[Call<'_>],
    answers: &[Result<usize, WriteFault>],
) -> anyhow::Result<u32> {
    let mut records: u32 = 0;
    let mut left = Part {
        bytes: sheet,
        place: 0,
    };
    for (call, answer) in calls.iter().zip(answers) {
        if let Ok(place) = *answer {
            left = read_one(left, *call, place)?;
            records = records.wrapping_add(1);
        }
    }
    if left.bytes.is_empty() {
        Ok(records)
    } else {
        Err(anyhow!("more than was put"))
    }
}

// A second writer makes the same bytes of the sheet.
fn copy_same(sheet: &[u8]) -> anyhow::Result<()> {
    let mut copy = [0; 65535];
    let Ok(long) = rewrite(sheet, &mut copy) else {
        return Err(anyhow!("it is not copied"));
    };
    if copy.get(..long) == Some(sheet) {
        Ok(())
    } else {
        Err(anyhow!("the copy differs"))
    }
}

// The place that an accepted end answered.
fn ended(calls: &[Call<'_>], answers: &[Result<usize, WriteFault>]) -> Option<usize> {
    for (call, answer) in calls.iter().zip(answers) {
        if let (Call::End, Ok(place)) = (*call, *answer) {
            return Some(place);
        }
    }
    None
}

// the heading, what the sheet holds, and the end
fn counted(found: &Summary) -> u32 {
    2_u32
        .wrapping_add(found.variables)
        .wrapping_add(found.constraints)
        .wrapping_add(found.moves)
}

// After an accepted end the check accepts what was written, and as many records; each is read back as what was put; and a copy of it is the same.
pub fn read_back(
    calls: &[Call<'_>],
    answers: &[Result<usize, WriteFault>],
    buffer: &[u8],
) -> anyhow::Result<()> {
    let Some(place) = ended(calls, answers) else {
        return Ok(());
    };
    let sheet = buffer.get(..place).context("the end is past the buffer")?;
    let found = match check(sheet) {
        Ok(found) => found,
        Err(fault) => return Err(anyhow!("{fault}")),
    };
    if counted(&found) != read_records(sheet, calls, answers)? {
        return Err(anyhow!("{found}"));
    }
    copy_same(sheet)
}
