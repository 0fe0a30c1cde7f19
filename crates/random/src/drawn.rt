// Catalogs of constraints of one kind, each with its own ends and relation.
ghost use Rattle.std.specs.Prelude.{◌≡◌, ◌<◌, ◌↔◌, length, min, ⊤, IsSome, IfSome, Some};
ghost use Rattle.std.specs.List.{slice_get};
ghost use Rattle.random.specs.Constraints.{drawn, drawn_lawful};

use crate::ends::Ends;
use crate::relation::Relation;
use crate::sum::Sum;
use crate::table::Table;
use catalog::Catalog;
use std::alloc::AllocError;

// Two variables, and what is allowed of them.
#[derive(Clone, Copy)]
pub struct Constraint<R> {
    pub ends: Ends,
    pub relation: R,
}

// The first `count` of 24 constraints, all of them where it is more. A count beside an array and no `ArrayVec`: this public type is `Copy` and must stay
// so, and `ArrayVec` is not; nor could its length be a count past 24, as `count` may be.
pub struct Drawn<R> {
    pub count: usize,
    pub constraints: [Constraint<R>; 24],
    ghost all_constraints: { length constraints ≡ 24 },
}

// Written out, since a derive is refused on a generic struct with a ghost field over its array.
impl<R: Copy> Clone for Drawn<R> {
    ghost is_infallible = { λ _. ⊤ };

    fn clone(&self) -> Result<Drawn<R>, AllocError> {
        Ok(*self)
    }
}

impl<R: Copy> Copy for Drawn<R> {}

pub type Tables = Drawn<Table>;

pub type Sums = Drawn<Sum>;

impl<R> Drawn<R> {
    // The constraint `p`, if there is one.
    fn constraint(&self, p: usize) -> Option<&Constraint<R>>
        ensures found { IsSome result ↔ (p < min self.now.count 24) }
        ensures value { IfSome result (λ c. slice_get self.now.constraints p ≡ Some c.now) }
    {
        if p < self.count {
            self.constraints.get(p)
        } else {
            None
        }
    }
}

impl<R: Relation> Catalog for Drawn<R> {
    ghost meaning = { λ s. drawn R.allowed s.count s.constraints };

    ghost lawful = { λ s. drawn_lawful R.allowed s.count s.constraints };

    fn count(&self) -> usize {
        self.count.min(24)
    }

    fn ends(&self, p: usize) -> Option<(usize, usize)> {
        let ends = self.constraint(p)?.ends;
        Some((ends.left, ends.right))
    }

    fn allows(&self, p: usize, x: usize, y: usize) -> bool {
        self.constraint(p)
            .is_some_and(|constraint| constraint.relation.allows(x, y))
    }
}
