// A table of pairs.
ghost use Rattle.std.specs.Prelude.{◌≡◌, length, ◌<◌};
ghost use Rattle.random.specs.Constraints.{in_table};

use crate::relation::Relation;

// Bit y of row x is set where x is allowed beside y.
#[derive(Clone, Copy)]
pub struct Table {
    pub rows: [u64; 64],
    ghost all_rows: { length rows ≡ 64 },
}

impl Relation for Table {
    ghost allowed = { λ s x y. in_table s.rows x y };

    fn allows(&self, x: usize, y: usize) -> bool {
        x < 64 && y < 64 && bits::has(self.rows[x], y)
    }
}
