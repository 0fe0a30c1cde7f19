// A value by its place in the data.
ghost use Rattle.std.specs.Prelude.{◌<◌};

// The value of a variable, both numbers small enough for the arrays.
#[derive(Clone, Copy)]
pub(crate) struct Value {
    pub variable: usize,
    pub value: usize,
    pub ghost variable_low: { variable < 32 },
    pub ghost value_low: { value < 64 },
}
