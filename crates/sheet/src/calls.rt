// Calls of a writer given as values: one, or a list of them that are made one after the other.
ghost use Rattle.std.specs.Prelude.{◌≡◌, List, ◌++◌, drop, length, take};
ghost use Rattle.sheet.specs.Calls.{asked, Makes, Placed, one_put, Stands, Wrote};

use crate::{Formula, Writer};
use sheet_format::{Variable, WriteFault};

// A call of a writer.
#[derive(Clone, Copy)]
pub enum Call<'a> {
    Heading(u16),
    Variable(Variable),
    Sum {
        left: u8,
        right: u8,
        formula: Formula,
    },
    Table {
        left: u8,
        right: u8,
        rows: &'a [u64],
    },
    Add(u16),
    Retract(u16),
    End,
    Abandon,
}

impl Writer {
    // Makes one call, given as a value: the method of its kind, with what it says.
    pub fn make(&mut self, buffer: &mut [u8], call: Call<'_>) -> Result<usize, WriteFault>
        ensures call { Makes self.old buffer.old (asked call.entry) self.new buffer.new result }
        ensures stands { (entries : List Placed) → Stands entries self.old buffer.old → Stands (entries ++ one_put (asked call.entry) result) self.new buffer.new }
    {
        match call {
            Call::Heading(n) => self.heading(buffer, n),
            Call::Variable(variable) => self.variable(buffer, variable),
            Call::Sum {
                left,
                right,
                formula,
            } => self.sum(buffer, left, right, formula),
            Call::Table { left, right, rows } => self.table(buffer, left, right, rows),
            Call::Add(index) => self.add(buffer, index),
            Call::Retract(index) => self.retract(buffer, index),
            Call::End => self.end(buffer),
            Call::Abandon => self.abandon(),
        }
    }
}

// Makes a writer, and these calls of it in their order, as many as there are entries for their answers, and abandons it where they leave it open. What
// the calls answer, and what stands in the buffer after them, is what the definition says call by call; after an accepted end it is the sheet that was put in.
pub fn write(calls: &[Call<'_>], answers: &mut [Result<usize, WriteFault>], buffer: &mut [u8])
    ensures wrote { Wrote buffer.old (take (length answers.old) calls.now) (take (length calls.now) answers.new) buffer.new }
    ensures long { length answers.new ≡ length answers.old }
    ensures others { drop (length calls.now) answers.new ≡ drop (length calls.now) answers.old }
{
    // The place is that of the call and of its answer: after `iter_mut().zip(..)` nothing is known of what was written.
    let there = calls.len().min(answers.len());
    let mut writer = Writer::new();
    for (i, call) in calls[..there].iter().enumerate() {
        answers[i] = writer.make(buffer, *call);
    }
    let _ = writer.abandon();
}
