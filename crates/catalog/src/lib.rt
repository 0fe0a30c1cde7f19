// Catalogs of constraints: what a catalog is, two joined into one, one with its variables renumbered, and the house's; the rows of a constraint and
// the wiped-out variable of a list of domains (`supports`); and why calls that name variables, values and constraints are refused, with the tests of it
// that several calls make (`checks`).
#![tactic(auto)]

ghost use Rattle.std.specs.Prelude.{◌≡◌, ◌≤◌};
ghost use Rattle.catalog.specs.Constraints.{arcs_of};
ghost use Rattle.catalog.specs.Meaning.{Meaning, Lawful, GoodEnds, ends_of, allowed};

pub mod checks;
pub mod house;
pub mod joined;
pub mod numbering;
pub mod refusal;
pub mod renumbered;
pub mod supports;

// At most 128 constraints, each between two different variables below 32. Each answer is the meaning's, and no question alters
// the catalog, so that it answers the same however often it is asked.
pub trait Catalog {
    ghost meaning: { Self → Meaning };

    ghost lawful: { (s : Self) → Lawful (meaning s) };

    // How many constraints there are.
    fn count(&self) -> usize
        ensures value { result ≡ (meaning self.now).count }
        ensures few { result ≤ 128 };

    // The two variables that the constraint `p` ties.
    fn ends(&self, p: usize) -> Option<(usize, usize)>
        ensures value { result ≡ ends_of (meaning self.now) p }
        ensures good { GoodEnds result };

    // Does the constraint `p` allow the value `x` of its first end beside the value `y` of its second?
    fn allows(&self, p: usize, x: usize, y: usize) -> bool
        ensures { result ≡ allowed (meaning self.now) p x y };
}
