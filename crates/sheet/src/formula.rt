// The formula of a sum constraint.
ghost use Rattle.std.specs.Prelude.{◌≡◌, pos, negsuc, int_le};
ghost use Rattle.sheet_format.specs.Verdict.{sum_good, between_z};
ghost use Rattle.sheet.specs.Sums.{formula_in};

use sheet_format::{long, word};

// Allows x beside y when lo <= m * x + k * y <= hi.
#[derive(Clone, Copy)]
pub struct Formula {
    pub m: i16,
    pub k: i16,
    pub lo: i32,
    pub hi: i32,
}

// a factor of a sum lies from -1,000 to 1,000
fn factor_good(z: i16) -> bool
    ensures { result ≡ between_z (negsuc 999) (pos 1000) z }
{
    -1000 <= z && z <= 1000
}

impl Formula {
    // The formula that stands in a sum constraint's body, after both ends; with 0 for what lies past the body.
    pub fn of_body(body: &[u8]) -> Formula
        ensures { result ≡ formula_in body.now }
    {
        Formula {
            m: word(body, 2).cast_signed(),
            k: word(body, 4).cast_signed(),
            lo: long(body, 6).cast_signed(),
            hi: long(body, 10).cast_signed(),
        }
    }

    // the factors are near 0, and the limits are in order
    pub(crate) fn is_good(self) -> bool
        ensures { result ≡ sum_good self.m self.k self.lo self.hi }
    {
        factor_good(self.m) && factor_good(self.k) && self.lo <= self.hi
    }
}
