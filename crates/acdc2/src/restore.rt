// Retraction: values that may have gone out because of the constraint are put back, then those that may have gone out because of these, and
// then the surplus is filtered out again.
ghost use Rattle.std.specs.Prelude.{◌≡◌, IfOk, false, slice_set};

use crate::Solver;
use crate::arc::Arc;
use crate::marks::Marks;
use crate::state::{Justification, State};
use catalog::Catalog;
use std::alloc::{AllocError, Global};

// More turns than restoring can take: each of 2,048 values comes back at most once, and each set that waits has one of them.
// A bound, and no `while let`: that none waits in the end is not proved here, and every call is to end.
const TURNS: usize = 2049;

// Values of one variable that came back together, one or more, and the least time at which one of them had gone out.
#[derive(Clone, Copy)]
struct Restored {
    variable: usize,
    time: u64,
    values: u64,
}

impl Restored {
    // The value `d` of the variable `u` alone, which was out for that reason.
    fn only(u: usize, d: usize, why: Justification) -> Restored {
        Restored {
            variable: u,
            time: why.time,
            values: bits::with(0, d),
        }
    }

    // The set with the value `d`, which was out for that reason.
    fn with(self, d: usize, why: Justification) -> Restored {
        Restored {
            time: self.time.min(why.time),
            values: bits::with(self.values, d),
            ..self
        }
    }
}

// Puts back every value of `u` that is out for a reason that the test accepts, if there is any. A loop and no filter, since it changes the state that it reads.
fn put_back<F: Fn(usize, Justification) -> bool>(
    state: &mut State,
    u: usize,
    test: F,
) -> Option<Restored>
    requires { F.IsAlwaysCallable test }
    ensures { state.new.present ≡ state.old.present }
{
    let mut restored: Option<Restored> = None;
    for d in 0..64 {
        if let Some(why) = state.why(u, d) {
            if test(d, why) {
                state.put_back(u, d);
                restored = Some(match restored {
                    Some(others) => others.with(d, why),
                    None => Restored::only(u, d, why),
                });
            }
        }
    }
    restored
}

impl<C: Catalog> Solver<'_, C> {
    // Puts back every value of `u` that went out since it lost all supports in `v`.
    fn initialize(&mut self, u: usize, v: usize) -> Option<Restored>
        ensures { self.new.state.present ≡ self.old.state.present }
    {
        put_back(&mut self.state, u, |_, why| why.neighbour == v)
    }

    // `from` holds values of the arc's far variable. Puts back every value of the near one that went out because of the far one, later than the first
    // of `from` did, and that has a support in `from`.
    fn follow(&mut self, arc: Arc, from: Restored) -> Option<Restored>
        ensures { self.new.state.present ≡ self.old.state.present }
    {
        let catalog = self.catalog;
        put_back(&mut self.state, arc.near, |d, why| {
            why.neighbour == arc.far
                && why.time > from.time
                && arc.supported(catalog, d, from.values)
        })
    }

    // Follows the restored values along each constraint at their variable.
    fn spread(&mut self, from: Restored, waiting: &mut Vec<Restored>) -> Result<(), AllocError>
        ensures { self.new.state.present ≡ self.old.state.present }
    {
        // No chain over the arcs: a loop over `filter_map` with a closure takes no invariant yet, and `present` is to stay.
        for p in 0..128 {
            if let Some(arc) = Arc::toward(self.catalog, p, from.variable)
                && self.state.present.has(p)
            {
                waiting.extend(self.follow(arc, from))?;
            }
        }
        Ok(())
    }

    // Follows every set that waits, and gives the constraints at the variables that got values back.
    fn restore(&mut self, waiting: &mut Vec<Restored>) -> Result<Marks, AllocError>
        ensures { self.new.state.present ≡ self.old.state.present }
    {
        let mut revise = Marks::none();
        for _ in 0..TURNS {
            let Some(from) = waiting.pop() else {
                return Ok(revise);
            };
            self.spread(from, waiting)?;
            self.schedule(from.variable, None, &mut revise);
        }
        Ok(revise)
    }

    // Takes out the constraint `p`, which is in, with these ends.
    pub(crate) fn remove(
        &mut self,
        heap: Global,
        p: usize,
        ends: (usize, usize),
    ) -> Result<(), AllocError>
        ensures { IfOk result (λ _. self.new.state.present.marks ≡ slice_set self.old.state.present.marks p false) }
    {
        let (u, v) = ends;
        let mut waiting = Vec::new(heap);
        waiting.extend(self.initialize(u, v))?;
        waiting.extend(self.initialize(v, u))?;
        self.state.present.set(p, false);
        let revise = self.restore(&mut waiting)?;
        self.filter(revise);
        Ok(())
    }
}
