// Which justifications rest on a constraint, worked out from the definition; and which are to be kept.
use crate::book::Value;
use crate::judge::Judge;
use crate::reported::Reported;
use catalog::Catalog;
use std::alloc::{AllocError, Global};

// Of each variable, the values whose justification is known to rest on the constraint.
#[derive(Drop)]
pub struct Resting {
    values: Vec<u64>,
}

impl Resting {
    fn has(&self, value: Value) -> bool {
        match self.values.get(value.variable) {
            Some(values) => bits::has(*values, value.value),
            None => false,
        }
    }

    // Notes that the value rests.
    fn note(&mut self, value: Value) {
        if let Some(values) = self.values.get_mut(value.variable) {
            *values = bits::with(*values, value.value);
        }
    }
}

impl<C: Catalog> Judge<'_, C> {
    // Does the value's justification rest on `p`, as far as is known: does it name `p`, or is there a support under its constraint that rests on it?
    fn rests(&self, resting: &Resting, value: Value, p: Option<usize>) -> bool {
        let Some(constraint) = self.reported.constraint(value) else {
            return false;
        };
        let Some(variable) = self.other_end(constraint, value.variable) else {
            return false;
        };
        let supports = |y| {
            let other = Value { variable, value: y };
            resting.has(other) && self.fits(constraint, value, y)
        };
        p == Some(constraint) || (0..self.book.size(variable)).any(supports)
    }

    // Notes each value that is now seen to rest on `p`, and says whether there was a new one.
    fn sweep(&self, resting: &mut Resting, p: Option<usize>) -> bool {
        let mut more = false;
        for value in &self.book.values {
            if !resting.has(*value) && self.rests(resting, *value, p) {
                resting.note(*value);
                more = true;
            }
        }
        more
    }

    // The values whose justification rests on `p`, if there is one.
    pub fn resting_on(&self, heap: Global, p: Option<usize>) -> Result<Resting, AllocError> {
        let values = vec![in heap; 0; self.book.sizes.len()]?;
        let mut resting = Resting { values };
        // Each sweep but the last notes one of at most 2,048 values. A bound, and no `while`: that a sweep notes none in the end is not proved here, and
        // the call is to end.
        for _ in 0..2049 {
            if !self.sweep(&mut resting, p) {
                break;
            }
        }
        Ok(resting)
    }

    // Has each value that was out when this was reported, and whose justification does not rest on what is retracted, the same justification after?
    pub fn kept(&self, after: &Reported, resting: &Resting) -> bool {
        self.book.values.iter().all(|value| {
            let before = self.reported.account(*value);
            before.is_none() || resting.has(*value) || before == after.account(*value)
        })
    }
}
