// Sets of constraints: those that are in, and those that wait for revision.
ghost use Rattle.std.specs.Prelude.{◌≡◌, false, replicate, slice_index_or, slice_set};

// One mark for each constraint, and no list of those marked, since adding a constraint is not to fail for want of memory.
// The trials' `Book` has the same of its own: it judges this solver, and a slip in a shared type would be the same on both sides.
#[derive(Clone, Copy)]
pub(crate) struct Marks {
    marks: [bool; 128],
}

impl Marks {
    pub(crate) fn none() -> Marks
        ensures { result.marks ≡ replicate 128 false }
    {
        Marks {
            marks: [false; 128],
        }
    }

    pub(crate) fn only(p: usize) -> Marks {
        let mut marks = Marks::none();
        marks.set(p, true);
        marks
    }

    pub(crate) fn has(&self, p: usize) -> bool
        ensures { result ≡ slice_index_or self.now.marks p false }
    {
        self.marks.get(p).copied().unwrap_or(false)
    }

    pub(crate) fn set(&mut self, p: usize, marked: bool)
        ensures { self.new.marks ≡ slice_set self.old.marks p marked }
    {
        if p < 128 {
            self.marks[p] = marked;
        }
    }

    // Takes out the first constraint of the set, if there is one.
    pub(crate) fn take(&mut self) -> Option<usize> {
        let p = self.marks.iter().position(|marked| *marked)?;
        self.marks[p] = false;
        Some(p)
    }
}
