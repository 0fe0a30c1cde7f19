// The plain data of the propagation engine: constraints with their rows of supports, and domains with their justifications.
#![tactic(auto)]

ghost use Rattle.std.specs.Prelude.{◌≡◌, ℕ, ◌^◌, ◌<◌, length, [], slice_index, slice_index_or};

mod clock;
mod make;

pub use clock::is_spent;
pub use make::{capped, full, no_constraints, no_domains, no_justifications};

// Bit x of `sets[i]` says whether the value x of the variable i is shown; `why[i][x]` is its justification, which counts for nothing while it is: an
// `Option` would say again what the bit says, by which rows are met. The sets stand apart from the justifications, since a retraction keeps all sets as they
// were and compares them after, 256 bytes, and not the 32 kilobytes that they would lie among.
#[derive(Drop)]
pub struct Domains {
    pub sets: [u64; 32],
    pub why: [[Justification; 64]; 32],
    pub clock: u32,
    pub ghost sets_long: { length sets ≡ 32 },
    pub ghost why_long: { length why ≡ 32 },
    pub ghost each_why_long: { (i : ℕ) → i < 32 → length (slice_index_or why i []) ≡ 64 },
    pub ghost wide: { (i : ℕ) → slice_index sets i < 2 ^ 64 },
}

// The variables' sizes, and the constraints by their index: whether each is in, its two ends, and its rows of supports on the sides of both.
// `rows[2 * p][x]` has bit y, and `rows[2 * p + 1][y]` has bit x, where p lets x of its left end stand beside y of its right end: of three
// levels of arrays, with a pair of sides for each constraint, the type would have to say three lengths where it says two. Presence, ends and rows stand apart, since each is used for all constraints by itself:
// an opening takes every one out in one write and leaves ends and rows, which of a struct for each would be a loop with a proof of its own. Ends that were
// never given are twice 0, which given ones never are: of `Option<Ends>` every reader would take out what is there wherever a constraint is in. Only what
// is true of any arrays of these types stands in the type: what else is asked of constraints is `Shape`, since anyone may make such a value.
#[derive(Drop)]
pub struct Constraints {
    pub sizes: [u8; 32],
    pub present: [bool; 128],
    pub ends: [Ends; 128],
    pub rows: [[u64; 64]; 256],
    pub ghost sizes_long: { length sizes ≡ 32 },
    pub ghost present_long: { length present ≡ 128 },
    pub ghost ends_long: { length ends ≡ 128 },
    pub ghost rows_long: { length rows ≡ 256 },
    pub ghost each_row_long: { (s : ℕ) → s < 256 → length (slice_index_or rows s []) ≡ 64 },
}

// The two variables that a constraint ties.
#[derive(Clone, Copy, PartialEq, Eq, Debug)]
pub struct Ends {
    pub left: u8,
    pub right: u8,
}

// A constraint seen from one of its ends, with the place of its rows on that side.
#[derive(Clone, Copy, PartialEq, Eq, Debug)]
pub struct Arc {
    pub constraint: usize,
    pub near: usize,
    pub far: usize,
    pub rows: usize,
}

// By which constraint a value is out, and since when.
#[derive(Clone, Copy, PartialEq, Eq, Debug, Default)]
pub struct Justification {
    pub constraint: usize,
    pub time: u32,
}

// A value that came back, with the time of the justification that it had.
#[derive(Clone, Copy, PartialEq, Eq, Debug, Default)]
pub struct Returning {
    pub variable: u8,
    pub value: u8,
    pub time: u32,
}
