// Catalogs and numberings drawn from a generator. The generator and the span stay two parameters, since the three public functions take them so.
ghost use Rattle.std.specs.Prelude.{length, min, ◌<◌, ◌≡◌, ◌≤◌, ℕ};
ghost use Rattle.catalog.specs.Numbered.{IsNumbering, entry};
ghost use Rattle.random.specs.Constraints.{LieBelow};

use crate::Random;
use crate::density::Density;
use crate::drawn::{Constraint, Sums, Tables};
use crate::ends::Ends;
use crate::sum::Sum;
use crate::table::Table;
use catalog::numbering::Numbering;
use std::array;

// Two different variables below `span`, taken to be from 2 to 32.
fn ends(random: &mut Random, span: usize) -> Ends
    ensures { 2 ≤ span → LieBelow span result }
{
    let span = span.clamp(2, 32);
    let left = random.below(span);
    let right = (left + 1 + random.below(span - 1)) % span;
    if left != right {
        Ends { left, right }
    } else {
        Ends { left: 0, right: 1 }
    }
}

// Ends for 24 constraints, which are drawn before any relation.
fn all_ends(random: &mut Random, span: usize) -> [Ends; 24]
    ensures { length result ≡ 24 }
{
    array::from_fn(|_| ends(random, span))
}

// A row as full as that.
fn row(random: &mut Random, density: Density) -> u64 {
    let a = random.draw();
    let b = random.draw();
    match density {
        Density::Quarter => a & b,
        Density::Half => a,
        Density::ThreeQuarters => a | b,
    }
}

fn table(random: &mut Random, density: Density) -> Table {
    Table {
        rows: array::from_fn(|_| row(random, density)),
    }
}

// Up to 24 tables on variables below `span`.
// Not one function with `sums`: of an array of a type parameter the proof that it fits in memory did not close (tried: from_fn, map).
pub fn tables<D: Into<Density>>(
    random: &mut Random,
    count: usize,
    span: usize,
    density: D,
) -> Tables
    ensures { result.count ≡ count }
{
    let density = density.into();
    let constraints = all_ends(random, span).map(|ends| Constraint {
        ends,
        relation: table(random, density),
    });
    Tables { count, constraints }
}

// A sum that is met by a good part of the pairs of values below `size`.
fn sum(random: &mut Random, size: usize) -> Sum {
    let size = size.min(64);
    let falling = random.below(2) == 0;
    let shift = if falling { 64 - size } else { 0 };
    let lo = random.below(size) + shift;
    Sum {
        m: random.below(3) as u8,
        falling,
        lo,
        hi: lo + random.below(2 * size),
    }
}

// Up to 24 sums on variables below `span` with about `size` values.
pub fn sums(random: &mut Random, count: usize, span: usize, size: usize) -> Sums
    ensures { result.count ≡ count }
{
    let constraints = all_ends(random, span).map(|ends| Constraint {
        ends,
        relation: sum(random, size),
    });
    Sums { count, constraints }
}

// The numbers below `span` shuffled; the others keep their places. The turn's number `e` is one of the two places, and the bound of the other.
pub fn numbering(random: &mut Random, span: usize) -> Numbering
    ensures numbering { IsNumbering result.to }
    ensures rest { (e : ℕ) → min span 32 ≤ e → e < 32 → entry result.to e ≡ e }
{
    let mut list: [usize; 32] = array::from_fn(|e| e);
    for e in 1..span.min(32) {
        list.swap(e, random.below(e));
    }
    Numbering::new(&list).unwrap_or(Numbering::identity())
}
