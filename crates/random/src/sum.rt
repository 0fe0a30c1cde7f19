// A bounded sum.
ghost use Rattle.std.specs.Prelude.{◌≡◌, ◌<◌};
ghost use Rattle.random.specs.Sums.{allowed_by};

use crate::relation::Relation;

// lo <= m * x + y <= hi, with 63 - y in place of y where it is falling.
#[derive(Clone, Copy)]
pub struct Sum {
    pub m: u8,
    pub falling: bool,
    pub lo: usize,
    pub hi: usize,
}

impl Relation for Sum {
    ghost allowed = { allowed_by };

    fn allows(&self, x: usize, y: usize) -> bool {
        if x >= 64 || y >= 64 {
            return false;
        }
        let second = if self.falling { 63 - y } else { y };
        let total = self.m as usize * x + second;
        self.lo <= total && total <= self.hi
    }
}
