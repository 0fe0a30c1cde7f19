// A constraint seen from one of its ends, as rows of bits.
ghost use Rattle.std.specs.Prelude.{◌≡◌, length};

// Entry x of `rows` is the set of the values of `far` that may stand beside the value x of `near`.
#[derive(Clone, Copy)]
pub struct Arc {
    pub near: usize,
    pub far: usize,
    pub rows: [u64; 64],
    ghost full: { length rows ≡ 64 },
}
