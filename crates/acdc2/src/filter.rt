// Filtering: AC-3, keeping for each value that it puts out the neighbour and the time.
ghost use Rattle.std.specs.Prelude.{◌≡◌};

use crate::Solver;
use crate::arc::Arc;
use crate::marks::Marks;
use catalog::Catalog;

// More turns than filtering can take: each of 2,048 values goes out at most once, and each time fewer than 128 constraints begin to wait.
// A bound, and no `while let`: that none waits in the end is not proved here, and every call is to end.
const TURNS: usize = 128 * 2049;

impl<C: Catalog> Solver<'_, C> {
    // Lets every constraint that is in and ties `u` wait, but for `except`.
    pub(crate) fn schedule(&self, u: usize, except: Option<usize>, waiting: &mut Marks) {
        let ties = |p: &usize| {
            self.state.present.has(*p)
                && except != Some(*p)
                && Arc::toward(self.catalog, *p, u).is_some()
        };
        for p in (0..128).filter(ties) {
            waiting.set(p, true);
        }
    }

    // Puts out each value of the near variable that has no support in the far one's domain, and says whether there was any.
    fn filter_arc(&mut self, arc: Arc) -> bool
        ensures { self.new.state.present ≡ self.old.state.present }
    {
        let near = self.state.domain(arc.near);
        let far = self.state.domain(arc.far);
        // No chain over the values that are shown: a loop over `filter` with a closure takes no invariant yet, and `present` is to stay.
        for d in 0..64 {
            if bits::has(near, d) && !arc.supported(self.catalog, d, far) {
                self.state.put_out(arc.near, d, arc.far);
            }
        }
        self.state.domain(arc.near) != near
    }

    // Filters the near variable, and if it lost a value lets the other constraints at it wait.
    fn revise(&mut self, arc: Arc, waiting: &mut Marks)
        ensures { self.new.state.present ≡ self.old.state.present }
    {
        if self.filter_arc(arc) {
            self.schedule(arc.near, Some(arc.constraint), waiting);
        }
    }

    // Revises the constraints that wait, and those that begin to wait on the way, until none does.
    pub(crate) fn filter(&mut self, mut waiting: Marks)
        ensures { self.new.state.present ≡ self.old.state.present }
    {
        for _ in 0..TURNS {
            let Some(p) = waiting.take() else {
                return;
            };
            if let Some(ends) = self.catalog.ends(p) {
                for arc in Arc::both(p, ends) {
                    self.revise(arc, &mut waiting);
                }
            }
        }
    }
}
