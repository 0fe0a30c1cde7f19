// Both solvers, opened on one catalog with the same variables.
use crate::checks::{check_change, check_done};
use crate::first::First;
use crate::second::Second;
use catalog::Catalog;
use catalog::refusal::Refusal;
use catalog::supports::wiped_out;
use judging::book::Call;
use judging::expected::differing;
use judging::trouble::Trouble;
use network::{Change, Lent};
use std::alloc::Global;

// Just enough of the buffers.
const ENOUGH: Lent = Lent {
    waiting: 128,
    returning: 2048,
};

#[derive(Drop)]
pub struct Both<'a, C> {
    first: First<'a, C>,
    second: Second<'a, C>,
    variables: usize,
}

impl<'a, C: Catalog> Both<'a, C> {
    // Opens both with these sizes, the network at the time 0.
    pub fn open(heap: Global, catalog: &'a C, sizes: &[usize]) -> Result<Both<'a, C>, Trouble> {
        let mut first = First::new(heap, catalog)?;
        first.open(sizes, 0)?;
        Ok(Both {
            first,
            second: Second::open(heap, catalog, sizes)?,
            variables: sizes.len(),
        })
    }

    // The domains, which are to be the same on both; of the variables past the last one they are empty.
    pub fn domains(&self) -> Result<[u64; 32], Trouble> {
        let mut domains = [0; 32];
        for (i, domain) in domains.iter_mut().enumerate() {
            *domain = self.first.domain(i);
            if *domain != self.second.domain(i) {
                return Err(Trouble::SecondDomains);
            }
        }
        Ok(domains)
    }

    // Makes a call on both. They are to refuse it by the same cause, or to have the same domains after it, of which the network is to tell how many values went or
    // came back and the wiped-out variable.
    pub fn make(&mut self, heap: Global, call: Call) -> Result<Result<Change, Refusal>, Trouble> {
        let before = self.domains()?;
        let answer = self.first.make(call, ENOUGH)?;
        check_done(self.second.make(heap, call), answer.err())?;
        let after = self.domains()?;
        if let Ok(change) = answer {
            let due = Change {
                values: differing(&before, &after),
                wiped: wiped_out(&after, self.variables),
            };
            check_change(change, due)?;
        } else if before != after {
            return Err(Trouble::Domains);
        }
        Ok(answer)
    }
}
