// The sizes of a network's variables: those that a sheet gives, or those of any list that a network takes.
ghost use Rattle.std.specs.Prelude.{◌≡◌, ◌≤◌, None, length, take};
ghost use Rattle.catalog.specs.Causes.{sizes_refusal};

// From 1 to 32 sizes, each from 1 to 64: of a sheet, as many as it has variables, by their house numbers. An array and a count: the public type was `Copy` and must stay so, as an
// ArrayVec is not.
#[derive(Clone, Copy)]
pub struct Sizes {
    sizes: [usize; 32],
    count: usize,
    ghost wide: { length sizes ≡ 32 },
    ghost few: { count ≤ 32 },
    ghost good: { sizes_refusal (take count sizes) ≡ None },
}

pub mod reading;
