// Makes the calls of a table of cases by a writer in hand, each of which is lent a buffer of its own. A line is as that of a list of calls on one buffer, and
// besides the calls there are: `b` and a number, from here on only so many of the array's first bytes are lent; `n`, a size and a byte, from here on all of
// another array is lent, of that size, which holds what was written so far and is full of that byte after it.
use crate::calls::{Line, buffer_of, call_of, case_of, number, print_answers};
use crate::reading::read_back;
use anyhow::{Context, anyhow};
use sheet::{Call, Writer};
use sheet_format::WriteFault;
use std::alloc::Global;

// the array that is lent, how much of it, the place that is reached in it, and the calls so far with their answers
#[derive(Drop)]
struct Hand<'a> {
    array: Vec<u8>,
    lent: usize,
    place: usize,
    calls: Vec<Call<'a>>,
    answers: Vec<Result<usize, WriteFault>>,
}

// the array is as it was, but for what lies between two places
fn is_kept(before: &[u8], after: &[u8], from: usize, to: usize) -> bool {
    before.get(..from) == after.get(..from) && before.get(to..) == after.get(to..)
}

// one call, which alters the array between the place before it and the place that it answers, or, refused, nowhere
fn call_lent<'a>(writer: &mut Writer, hand: &mut Hand<'a>, call: Call<'a>) -> anyhow::Result<()> {
    if hand.lent > hand.array.len() {
        return Err(anyhow!("more is lent than there is"));
    }
    let before = hand.array.clone()?;
    let answer = writer.make(&mut hand.array[..hand.lent], call);
    let reached = answer.unwrap_or(hand.place);
    if !is_kept(&before, &hand.array, hand.place, reached) {
        return Err(anyhow!("a call altered bytes that are not its own"));
    }
    hand.place = reached;
    hand.calls.push(call)?;
    hand.answers.push(answer)?;
    Ok(())
}

// another array in the place of the one that was lent
fn move_to(heap: Global, hand: &mut Hand<'_>, size: usize, byte: u8) -> anyhow::Result<()> {
    let mut array = Vec::new(heap);
    array.extend_from_slice(
        hand.array
            .get(..hand.place)
            .context("more is written than there is")?,
    )?;
    array.resize(size, byte)?;
    hand.array = array;
    hand.lent = size;
    Ok(())
}

// all that stands in the line
fn fill<'a>(
    heap: Global,
    writer: &mut Writer,
    hand: &mut Hand<'a>,
    lines: &'a [Line],
) -> anyhow::Result<()> {
    for line in lines {
        let first = number(line, 0);
        match line.letter {
            'b' => hand.lent = usize::try_from(first)?,
            'n' => move_to(
                heap,
                hand,
                usize::try_from(first)?,
                u8::try_from(number(line, 1))?,
            )?,
            _ => call_lent(writer, hand, call_of(line)?)?,
        }
    }
    Ok(())
}

pub fn try_case(rt: &HostRuntime, name: &str, text: &str) -> anyhow::Result<()> {
    let heap = rt.alloc();
    let (size, lines) = case_of(heap, text)?;
    let mut hand = Hand {
        array: buffer_of(heap, size)?,
        lent: size,
        place: 0,
        calls: Vec::new(heap),
        answers: Vec::new(heap),
    };
    let mut writer = Writer::new();
    let filled = fill(heap, &mut writer, &mut hand, &lines);
    let _ = writer.abandon();
    filled?;
    read_back(&hand.calls, &hand.answers, &hand.array).context("what was written is read back")?;
    print_answers(rt, name, &hand.answers, &hand.array)
}
