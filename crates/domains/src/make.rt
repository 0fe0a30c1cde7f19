// Data to begin with.
ghost use Rattle.std.specs.Prelude.{◌≡◌, ℕ, ◌^◌, ◌<◌, min, ◌&&◌, nat_lt, length, [], if◌then◌else◌, slice_index, slice_index_or};
ghost use Rattle.bits.specs.Bits.{domains_of, has_bit};
ghost use Rattle.domains.specs.Make.{no_constraints, no_domains, no_justifications};

use crate::{Constraints, Domains, Ends, Justification};
use std::array;

// No variables, and no constraint in.
pub fn no_constraints() -> Constraints
    ensures { result ≡ no_constraints }
{
    Constraints {
        sizes: [0; 32],
        present: [false; 128],
        ends: [Ends { left: 0, right: 0 }; 128],
        rows: [[0; 64]; 256],
    }
}

// Justifications that say nothing.
pub fn no_justifications() -> [[Justification; 64]; 32]
    ensures filled { result ≡ no_justifications }
    ensures long { length result ≡ 32 }
    ensures each_long { (i : ℕ) → i < 32 → length (slice_index_or result i []) ≡ 64 }
{
    [[Justification::default(); 64]; 32]
}

// No values, at time 0.
pub fn no_domains() -> Domains
    ensures { result ≡ no_domains }
{
    Domains {
        sets: [0; 32],
        why: no_justifications(),
        clock: 0,
    }
}

// The size of the variable i, at most 64, and 0 where none is given.
fn size_at(sizes: &[u8], i: usize) -> u8
    ensures { result ≡ min 64 (slice_index sizes.now i) }
{
    sizes.get(i).map_or(0, |size| (*size).min(64))
}

// The sizes of 32 variables.
fn all_sizes(sizes: &[u8]) -> [u8; 32]
    ensures long { length result ≡ 32 }
    ensures each { (i : ℕ) → i < 32 → slice_index result i ≡ min 64 (slice_index sizes.now i) }
{
    array::from_fn(|i| size_at(sizes, i))
}

// The first 32 sizes, each at most 64, and 0 where there are fewer.
pub fn capped(sizes: &[u8]) -> [u8; 32]
    ensures long { length result ≡ 32 }
    ensures sizes { (i : ℕ) → slice_index result i ≡ (if nat_lt i 32 then min 64 (slice_index sizes.now i) else 0) }
{
    all_sizes(sizes)
}

// Every value below the sizes.
pub fn full(sizes: &[u8; 32]) -> [u64; 32]
    ensures long { length result ≡ 32 }
    ensures wide { (i : ℕ) → slice_index result i < 2 ^ 64 }
    ensures shown { (i x : ℕ) → i < 32 → domains_of result i x ≡ (nat_lt x (slice_index sizes.now i) && nat_lt x 64) }
{
    sizes.map(
        |size: u8| -> u64
            ensures { (x : ℕ) → has_bit result x ≡ (nat_lt x size && nat_lt x 64) }
        { bits::below(size as usize) },
    )
}
