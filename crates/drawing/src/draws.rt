// What a list of calls is drawn from.
use judging::LAST_TIME;
use judging::book::{Book, Call, Value};
use network::Lent;
use random::Random;
use std::alloc::{AllocError, Global};

// How large the networks of a list may be, and how many changes follow each opening.
#[derive(Clone, Copy)]
pub struct Shape {
    pub variables: usize,
    pub values: usize,
    pub changes: usize,
}

impl Shape {
    // How many calls a list has: twice it opens the network, then come the changes, each with a question after it, and among them an opening that is refused.
    pub fn all_calls(self) -> usize {
        self.changes.wrapping_add(1).wrapping_mul(4)
    }

    // With any number of variables from 2 up to as many.
    pub fn narrowed(self, random: &mut Random) -> Shape {
        Shape {
            variables: random.between(2, self.variables),
            ..self
        }
    }
}

// How many entries of the buffers a call may be lent: just enough, one too few, one more, none, or more than there are.
const WAITING: [usize; 5] = [128, 127, 129, 0, 4000];

const RETURNING: [usize; 5] = [2048, 2047, 2049, 0, 4000];

// The generator and the shape, and the memory for a trial.
#[derive(Drop)]
pub struct Draws<'a> {
    pub heap: Global,
    pub random: &'a mut Random,
    pub shape: Shape,
}

impl Draws<'_> {
    // Sizes for as many variables, or now and then for one fewer.
    pub fn sizes(&mut self) -> Result<Vec<usize>, AllocError> {
        let Shape {
            variables,
            values,
            ..
        } = self.shape;
        let fewer = self.random.below(12) / 10;
        let n = variables.clamp(2, 32) - fewer;
        (0..n)
            .map(|_| self.random.between(1, values))
            .collect(self.heap)
    }

    // Sizes of which an opening is refused: none, 33, or some of which one is 0 or 65.
    pub fn bad_sizes(&mut self) -> Result<Vec<usize>, AllocError> {
        match self.random.below(4) {
            0 => Ok(Vec::new(self.heap)),
            1 => vec![in self.heap; 1; 33],
            kind => {
                let mut sizes = self.sizes()?;
                let place = self.random.below(sizes.len());
                if let Some(size) = sizes.get_mut(place) {
                    *size = if kind == 2 { 0 } else { 65 };
                }
                Ok(sizes)
            }
        }
    }

    // A first time: mostly one that leaves enough, and now and then one around the last time, or at the end.
    pub fn time(&mut self) -> u32 {
        match self.random.below(12) {
            0 => LAST_TIME - 30 + self.random.below(60) as u32,
            1 => u32::MAX - self.random.below(2) as u32,
            _ => self.random.below(4_000_000_000) as u32,
        }
    }

    // How much of the buffers a call is lent: mostly just enough.
    pub fn lent(&mut self) -> Lent {
        let kinds = if self.random.below(6) == 0 { 5 } else { 1 };
        Lent {
            waiting: WAITING[self.random.below(kinds)],
            returning: RETURNING[self.random.below(kinds)],
        }
    }

    // A constraint to add or retract, of so many: mostly one that there is.
    fn constraint(&mut self, count: usize) -> usize {
        let past = self.random.below(12) / 10;
        self.random.below(count.saturating_add(2 * past))
    }

    // A call: mostly what is out is added and what is in retracted.
    pub fn call(&mut self, book: &Book, count: usize) -> Call {
        let p = self.constraint(count);
        let usual = self.random.below(8) != 0;
        if book.is_in(p) != usual {
            Call::Add(p)
        } else {
            Call::Retract(p)
        }
    }

    // A value to ask about, often one that is not there.
    pub fn value(&mut self, book: &Book) -> Value {
        let variable = self.random.below(book.sizes.len() + 2);
        let value = self.random.below(book.size(variable).saturating_add(2));
        Value { variable, value }
    }
}
