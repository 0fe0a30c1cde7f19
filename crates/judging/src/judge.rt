// Whether the justifications that a solver tells are right, judged from the definition.
use crate::book::{Book, Value};
use crate::reported::{Account, Reported};
use catalog::Catalog;
use std::alloc::{AllocError, Global};

// What a solver reported, and by what it is judged.
#[derive(Drop)]
pub struct Judge<'a, C> {
    pub catalog: &'a C,
    pub book: &'a Book,
    pub reported: &'a Reported,
}

impl<C: Catalog> Judge<'_, C> {
    // Does the constraint `p` allow the value beside `y` of the other end?
    pub fn fits(&self, p: usize, value: Value, y: usize) -> bool {
        match self.catalog.ends(p) {
            Some((a, _)) if a == value.variable => self.catalog.allows(p, value.value, y),
            Some((_, b)) if b == value.variable => self.catalog.allows(p, y, value.value),
            _ => false,
        }
    }

    // The other end of the constraint `p`, if `i` is an end.
    pub fn other_end(&self, p: usize, i: usize) -> Option<usize> {
        let (a, b) = self.catalog.ends(p)?;
        if a == i {
            Some(b)
        } else if b == i {
            Some(a)
        } else {
            None
        }
    }

    // Does the constraint `p` account for the value being out since `time`: is it in, does it tie the value's variable, and is each opposite value
    // that it allows beside the value out since before?
    pub fn accounts_for(&self, value: Value, p: usize, time: u64) -> bool {
        let Some(variable) = self.other_end(p, value.variable) else {
            return false;
        };
        let goes_before = |y| {
            let other = Value { variable, value: y };
            !self.fits(p, value, y) || self.reported.out_before(other, time)
        };
        self.book.is_in(p) && (0..self.book.size(variable)).all(goes_before)
    }

    // Is the value shown and without an account, or out with one that holds?
    fn value_justified(&self, value: Value) -> bool {
        let shown = self.reported.shows(value);
        let Some(Account { constraint, time }) = self.reported.account(value) else {
            return shown;
        };
        match constraint {
            Some(p) => !shown && self.accounts_for(value, p, time),
            None => false,
        }
    }

    // Is each value shown and without an account, or out with one that holds?
    pub fn justified(&self) -> bool {
        self.book
            .values
            .iter()
            .all(|value| self.value_justified(*value))
    }

    // Have no two accounts the same time?
    pub fn times_differ(&self, heap: Global) -> Result<bool, AllocError> {
        let mut times = Vec::new(heap);
        for value in &self.book.values {
            if let Some(account) = self.reported.account(*value) {
                times.push(account.time)?;
            }
        }
        times.sort_unstable();
        let count = times.len();
        // of equal times one is left
        times.dedup();
        Ok(times.len() == count)
    }
}
