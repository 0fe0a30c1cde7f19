// Numberings of variables.
ghost use Rattle.std.specs.Prelude.{◌≡◌, ℕ, ◌<◌, length, ◌≢◌};
ghost use Rattle.catalog.specs.Numbered.{entry};

// A number below 32 for each of 32 variables, no two of them equal.
#[derive(Clone, Copy)]
pub struct Numbering {
    to: [usize; 32],
    ghost full: { length to ≡ 32 },
    ghost low: { (e : ℕ) → e < 32 → entry to e < 32 },
    ghost apart: { (v : ℕ × ℕ) → (v.0 < v.1) × (v.1 < 32) → entry to v.0 ≢ entry to v.1 },
}

pub mod making;
