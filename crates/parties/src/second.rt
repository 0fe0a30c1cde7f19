// What the second solver tells.
use acdc2::Solver;
use acdc2::fault::Fault;
use acdc2::state::Justification;
use catalog::Catalog;
use judging::book::{Book, Call, Value};
use judging::judge::Judge;
use judging::reported::{Account, Reported};
use std::alloc::{AllocError, Global};

// The second solver, and the catalog by which its justifications are completed.
#[derive(Drop)]
pub struct Second<'a, C> {
    catalog: &'a C,
    solver: Solver<'a, C>,
}

// The first constraint to the neighbour that accounts for the value being out, if any does.
fn accountable<C: Catalog>(
    judge: &Judge<'_, C>,
    value: Value,
    why: Justification,
) -> Option<usize> {
    (0..128).find(|p| {
        judge.other_end(*p, value.variable) == Some(why.neighbour)
            && judge.accounts_for(value, *p, why.time)
    })
}

impl<'a, C: Catalog> Second<'a, C> {
    pub fn open(
        heap: Global,
        catalog: &'a C,
        sizes: &[usize],
    ) -> Result<Second<'a, C>, AllocError> {
        let solver = Solver::open(heap, catalog, sizes)?;
        Ok(Second { catalog, solver })
    }

    // Makes a call.
    pub fn make(&mut self, heap: Global, call: Call) -> Result<(), Fault> {
        match call {
            Call::Add(p) => Ok(self.solver.add(p)?),
            Call::Retract(p) => self.solver.retract(heap, p),
        }
    }

    // The domain of a variable; nothing past the last one.
    pub fn domain(&self, variable: usize) -> u64 {
        self.solver.domain(variable)
    }

    // The domains and times, with no constraint in any account. A variable is its number, by which the solver is asked.
    fn times(&self, heap: Global, book: &Book) -> Result<Reported, AllocError> {
        let mut reported = Reported::new(heap);
        for variable in book.variables() {
            reported.add_domain(self.domain(variable))?;
        }
        for value in &book.values {
            if let Some(why) = self.solver.justification(value.variable, value.value) {
                let constraint = None;
                let time = why.time;
                reported.set_account(*value, Account { constraint, time });
            }
        }
        Ok(reported)
    }

    // The solver names only the neighbour of a value that is out: the account is the first constraint to that neighbour that holds, if any does.
    pub fn report(&self, heap: Global, book: &Book) -> Result<Reported, AllocError> {
        let mut reported = self.times(heap, book)?;
        for value in &book.values {
            if let Some(why) = self.solver.justification(value.variable, value.value) {
                let judge = Judge {
                    catalog: self.catalog,
                    book,
                    reported: &reported,
                };
                let constraint = accountable(&judge, *value, why);
                let time = why.time;
                reported.set_account(*value, Account { constraint, time });
            }
        }
        Ok(reported)
    }
}
