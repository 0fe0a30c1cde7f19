// Which variables and constraints a list of calls has brought about, kept by the trials themselves. The book shares with the solvers that it is held
// against only the catalogs and the names of the causes of refusal; what else the trials share with them is said at the top of this crate.
use crate::clock::Clock;
use catalog::Catalog;
use catalog::refusal::Refusal;
use std::alloc::{AllocError, Global};
use std::ops::Range;

// A value of a variable.
#[derive(Clone, Copy)]
pub struct Value {
    pub variable: usize,
    pub value: usize,
}

// A call: the constraint that is to be added, or retracted. Not `sheet::Move`, whose index is two bytes of a sheet: a trial has no sheet, and a
// constraint is any `usize`, as the solvers take it. Nor `network::Call`, which is a question or an opening too, and belongs to what is judged.
#[derive(Clone, Copy)]
pub enum Call {
    Add(usize),
    Retract(usize),
}

// `present`, with `is_in` and `set_in`, is like `Marks` of the solver `acdc2`, and shares no type with it: the book judges that solver, and a slip in
// a shared type would be the same on both sides.
#[derive(Drop)]
pub struct Book {
    pub sizes: Vec<usize>,
    // every value of every variable
    pub values: Vec<Value>,
    present: [bool; 128],
    clock: Clock,
}

// Are these sizes of variables, or why not?
pub fn may_open(sizes: &[usize]) -> Result<(), Refusal> {
    match sizes.len() {
        1..=32 if sizes.iter().all(|size| 0 < *size && *size < 65) => Ok(()),
        1..=32 => Err(Refusal::DomainSize),
        _ => Err(Refusal::VariableCount),
    }
}

impl Book {
    // These variables, no constraint in, and the clock at that time.
    pub fn open(heap: Global, sizes: Vec<usize>, time: u32) -> Result<Book, AllocError> {
        let mut values = Vec::new(heap);
        for (variable, size) in sizes.iter().enumerate() {
            for value in 0..*size {
                values.push(Value { variable, value })?;
            }
        }
        let present = [false; 128];
        Ok(Book {
            sizes,
            values,
            present,
            clock: Clock::at(time),
        })
    }

    // The variables, by their numbers.
    pub fn variables(&self) -> Range<usize> {
        0..self.sizes.len()
    }

    // The number of values of the variable `i`.
    pub fn size(&self, i: usize) -> usize {
        self.sizes.get(i).copied().unwrap_or(0)
    }

    pub fn is_in(&self, p: usize) -> bool {
        p < 128 && self.present[p]
    }

    fn set_in(&mut self, p: usize, now_in: bool) {
        if p < 128 {
            self.present[p] = now_in;
        }
    }

    // May the constraint `p` be added, or why not?
    fn may_add<C: Catalog>(&self, catalog: &C, p: usize) -> Result<(), Refusal> {
        let (a, b) = catalog.ends(p).ok_or(Refusal::NoSuchConstraint)?;
        if a >= self.sizes.len() || b >= self.sizes.len() {
            Err(Refusal::EndOutside)
        } else if self.is_in(p) {
            Err(Refusal::AlreadyIn)
        } else {
            Ok(())
        }
    }

    // Do the variables and what is in allow the call, or why not?
    pub fn may<C: Catalog>(&self, catalog: &C, call: Call) -> Result<(), Refusal> {
        match call {
            Call::Add(p) => self.may_add(catalog, p),
            Call::Retract(p) if p >= catalog.count() => Err(Refusal::NoSuchConstraint),
            Call::Retract(p) if !self.is_in(p) => Err(Refusal::NotIn),
            Call::Retract(_) => Ok(()),
        }
    }

    // Do buffers of so many entries and the clock allow a call that the rest allows, or why not? Where the book does not know whether the clock is spent, it
    // is as `is_spent` says.
    pub fn may_now(&self, waiting: usize, returning: usize, is_spent: bool) -> Result<(), Refusal> {
        if waiting < 128 || returning < 2048 {
            Err(Refusal::ShortBuffer)
        } else if self.clock.spent().unwrap_or(is_spent) {
            Err(Refusal::ClockSpent)
        } else {
            Ok(())
        }
    }

    // Why the domain of a variable may not be asked, nor whether its value is shown, nor why it is out.
    pub fn unasked(&self, value: Value) -> [Option<Refusal>; 3] {
        let Value { variable, value } = value;
        let missing = Some(Refusal::NoSuchValue);
        let domain = if variable < self.sizes.len() {
            None
        } else {
            missing
        };
        let of_value = if value < self.size(variable) {
            None
        } else {
            missing
        };
        [domain, of_value, of_value]
    }

    // Notes a call that is accepted, and how many values it changed.
    pub fn note(&mut self, call: Call, values: u32) {
        match call {
            Call::Add(p) => {
                self.set_in(p, true);
                self.clock = self.clock.after_add(values);
            }
            Call::Retract(p) => {
                self.set_in(p, false);
                self.clock = self.clock.after_retract();
            }
        }
    }

    // The constraints that are in.
    pub fn indices(&self, heap: Global) -> Result<Vec<usize>, AllocError> {
        (0..128).filter(|p| self.is_in(*p)).collect(heap)
    }
}
