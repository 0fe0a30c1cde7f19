// The calls of a writer as they stand in a table of cases, and how what they answer and what they leave is printed.
// A call is a letter and its numbers, joined by commas, perhaps followed by `*` and how often it stands.
use anyhow::{Context, anyhow};
use sheet::{Call, Formula};
use sheet_format::{Variable, WriteFault};
use std::alloc::{AllocError, Global};

// a call as it stands in the table
#[derive(Drop)]
pub struct Line {
    pub letter: char,
    numbers: Vec<i64>,
    rows: Vec<u64>,
}

pub fn number(line: &Line, at: usize) -> i64 {
    match line.numbers.get(at) {
        Some(number) => *number,
        None => 0,
    }
}

fn formula_of(line: &Line) -> anyhow::Result<Formula> {
    Ok(Formula {
        m: i16::try_from(number(line, 2))?,
        k: i16::try_from(number(line, 3))?,
        lo: i32::try_from(number(line, 4))?,
        hi: i32::try_from(number(line, 5))?,
    })
}

fn sum_of(line: &Line) -> anyhow::Result<Call<'_>> {
    Ok(Call::Sum {
        left: u8::try_from(number(line, 0))?,
        right: u8::try_from(number(line, 1))?,
        formula: formula_of(line)?,
    })
}

fn table_of(line: &Line) -> anyhow::Result<Call<'_>> {
    Ok(Call::Table {
        left: u8::try_from(number(line, 0))?,
        right: u8::try_from(number(line, 1))?,
        rows: &line.rows,
    })
}

pub fn call_of(line: &Line) -> anyhow::Result<Call<'_>> {
    match line.letter {
        's' => sum_of(line),
        't' => table_of(line),
        letter => {
            let first = u16::try_from(number(line, 0))?;
            let second = u16::try_from(number(line, 1))?;
            Ok(match letter {
                'h' => Call::Heading(first),
                'v' => Call::Variable(Variable {
                    size: first,
                    house: second,
                }),
                'a' => Call::Add(first),
                'r' => Call::Retract(first),
                'e' => Call::End,
                'x' => Call::Abandon,
                other => return Err(anyhow!("no call has the letter {other}")),
            })
        }
    }
}

pub fn calls_of<'a>(heap: Global, lines: &'a [Line]) -> anyhow::Result<Vec<Call<'a>>> {
    let mut calls = Vec::new(heap);
    for line in lines {
        calls.push(call_of(line)?)?;
    }
    Ok(calls)
}

// a table's numbers after its ends are its rows
fn line_of(heap: Global, word: &str) -> anyhow::Result<Line> {
    let letter = word.chars().next().context("a call has no letter")?;
    let mut numbers = Vec::new(heap);
    let mut rows = Vec::new(heap);
    for part in word.split(',').skip(1) {
        if letter == 't' && numbers.len() >= 2 {
            rows.push(part.parse::<u64>()?)?;
        } else {
            numbers.push(part.parse::<i64>()?)?;
        }
    }
    Ok(Line {
        letter,
        numbers,
        rows,
    })
}

fn add_word(heap: Global, lines: &mut Vec<Line>, word: &str) -> anyhow::Result<()> {
    let (call, times) = match word.split_once('*') {
        Some((call, count)) => (call, count.parse::<u32>()?),
        None => (word, 1),
    };
    for _ in 0..times {
        lines.push(line_of(heap, call)?)?;
    }
    Ok(())
}

// The length of the buffer, and the calls.
pub fn case_of(heap: Global, text: &str) -> anyhow::Result<(usize, Vec<Line>)> {
    let mut words = text.split(' ');
    let size = words
        .next()
        .context("a case has no buffer")?
        .parse::<u32>()?;
    let mut lines = Vec::new(heap);
    for word in words {
        add_word(heap, &mut lines, word)?;
    }
    Ok((size as usize, lines))
}

// A buffer that nothing is written to yet.
pub fn buffer_of(heap: Global, size: usize) -> Result<Vec<u8>, AllocError> {
    Vec::from_elem(heap, 238, size)
}

pub fn checksum(bytes: &[u8]) -> u32 {
    let mut sum: u32 = 0;
    for byte in bytes {
        sum = sum.wrapping_mul(31).wrapping_add(u32::from(*byte));
    }
    sum
}

// Prints what the last 16 calls answer, and a checksum of the buffer.
pub fn print_answers(
    rt: &HostRuntime,
    name: &str,
    answers: &[Result<usize, WriteFault>],
    buffer: &[u8],
) -> anyhow::Result<()> {
    print!(rt; "{name}:")?;
    let last = answers.len().saturating_sub(16);
    for answer in answers.iter().skip(last) {
        match *answer {
            Ok(place) => print!(rt; " {place}")?,
            Err(fault) => {
                let number = fault.number();
                print!(rt; " no{number}")?;
            }
        }
    }
    let sum = checksum(buffer);
    println!(rt; "; {sum}")?;
    Ok(())
}
