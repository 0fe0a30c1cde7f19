// Sets of values below 64, held as the bits of a `u64`.
#![tactic(auto)]

ghost use Rattle.std.specs.Prelude.{◌≡◌, ℕ, not, ◌&&◌, ◌||◌, ◌==◌, nat_lt};
ghost use Rattle.bits.specs.Bits.{has_bit};

mod values;

pub use values::Values;

// Is x in the set d? No for an x past the width.
#[tactic(auto, using(crate::proofs::Coded::code_has, crate::proofs::Coded::past_has))]
pub fn has(d: u64, x: usize) -> bool
    ensures { result ≡ has_bit d x }
{
    x < 64 && (d >> x) & 1 == 1
}

// The set d without x.
#[tactic(auto, using(crate::proofs::Coded::has_width, crate::proofs::Coded::code_cleared))]
pub fn without(d: u64, x: usize) -> u64
    ensures { (y : ℕ) → has_bit result y ≡ (has_bit d y && not (x == y)) }
{
    if has(d, x) { d ^ (1 << x) } else { d }
}

// The set d with x, where x lies within the width.
#[tactic(auto, using(crate::proofs::Coded::code_added))]
pub fn with(d: u64, x: usize) -> u64
    ensures { (y : ℕ) → has_bit result y ≡ (has_bit d y || (x == y && nat_lt x 64)) }
{
    if x < 64 { d | (1 << x) } else { d }
}

// The set of all values below n, of those within the width.
#[tactic(auto, using(crate::proofs::Coded::code_below, crate::proofs::Coded::all_below))]
pub fn below(n: usize) -> u64
    ensures { (y : ℕ) → has_bit result y ≡ (nat_lt y n && nat_lt y 64) }
{
    if n < 64 { (1 << n) - 1 } else { u64::MAX }
}
