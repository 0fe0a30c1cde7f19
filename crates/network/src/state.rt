// What a network holds beside its catalog, and what that means.
ghost use Rattle.std.specs.Prelude.{◌≡◌, length};

use engine::Engine;

// The engine, how many variables there are, and of which constraints the engine has the ends and the rows. How many variables there are is known here alone:
// the engine opens with any bytes, and has 32 sizes and 32 sets, 0 where none was given; with a list of sizes that knows its length, every place in these
// arrays would be asked to lie below it. The marks are no part of the engine, which knows of no catalog: they say what this one was asked for.
#[derive(Drop)]
pub struct State {
    pub engine: Engine,
    pub variables: usize,
    pub known: [bool; 128],
    ghost long: { length known ≡ 128 },
}
