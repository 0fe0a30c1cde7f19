// A network is made, and opened.
ghost use Rattle.std.specs.Prelude.{◌≡◌, ℕ, ◌<◌, ◌≤◌, false, None, length, replicate, slice_index, IfOk, OnErr};
ghost use Rattle.domains.specs.Make.{no_constraints, no_domains};
ghost use Rattle.std.specs.Result.{result_err};
ghost use Rattle.network.specs.Calls.{opens};
ghost use Rattle.network.specs.Moment.{Blank, Right};
ghost use Rattle.network.specs.declared.law.Answer.TheVariants.{Opened};
ghost use Rattle.network.specs.Model.{moment_of};
ghost use Rattle.network.specs.Served.{Serves, Stands};
ghost use Rattle.network.specs.Performs.{answer_by};
ghost use Rattle.catalog.specs.Causes.{sizes_refusal};

use super::Network;
use crate::state::State;
use catalog::Catalog;
use catalog::checks::check_sizes;
use catalog::refusal::Refusal;
use engine::Engine;

// The size of the variable i as a byte, 0 where there is no such variable.
fn size_at(sizes: &[usize], i: usize) -> u8
    ensures { slice_index sizes.now i ≤ 64 → result ≡ slice_index sizes.now i }
{
    match sizes.get(i) {
        Some(size) => u8::try_from(*size).unwrap_or(0),
        None => 0,
    }
}

// The sizes of 32 variables as bytes.
fn all_sizes(sizes: &[usize]) -> [u8; 32]
    ensures long { length result ≡ 32 }
    ensures each { (i : ℕ) → i < 32 → slice_index sizes.now i ≤ 64 → slice_index result i ≡ slice_index sizes.now i }
{
    let mut all = [0; 32];
    for (i, size) in all.iter_mut().enumerate() {
        *size = size_at(sizes, i);
    }
    all
}

// Sizes that are accepted as bytes, with 0 past their end.
fn narrow(sizes: &[usize]) -> [u8; 32]
    requires { sizes_refusal sizes.now ≡ None }
    ensures { (i : ℕ) → slice_index result i ≡ slice_index sizes.now i }
{
    all_sizes(sizes)
}

// No variables, no constraint in, and none known.
fn nothing() -> State
    ensures constraints { result.engine.constraints ≡ no_constraints }
    ensures domains { result.engine.domains ≡ no_domains }
    ensures variables { result.variables ≡ 0 }
    ensures known { result.known ≡ replicate 128 false }
{
    State {
        engine: Engine::new(),
        variables: 0,
        known: [false; 128],
    }
}

impl<C: Catalog> Network<C> {
    // A network with no variables, and no constraint in, at time 0. Everything stands rightly in it.
    pub fn new(catalog: C) -> Network<C>
        ensures catalog { result.catalog ≡ catalog }
        ensures linked { Stands C.Catalog.meaning result }
        ensures blank { Blank (moment_of result.state) }
        ensures right { Right (C.Catalog.meaning catalog) (moment_of result.state) }
    {
        Network {
            catalog,
            state: nothing(),
        }
    }

    // Opens the network: variables of these sizes, every value shown, no constraint in, and the clock at this time.
    pub fn open(&mut self, sizes: &[usize], time: u32) -> Result<(), Refusal>
        ensures catalog { self.new.catalog ≡ self.old.catalog }
        ensures performs { Serves C.Catalog.meaning self.old (opens sizes.now time) (answer_by (λ _. Opened) result) self.new }
        ensures stands { IfOk result (λ _. Stands C.Catalog.meaning self.new) }
        ensures refused { result_err result ≡ sizes_refusal sizes.now }
        ensures unchanged { OnErr result (self.new ≡ self.old) }
    {
        check_sizes(sizes)?;
        self.state.engine.open(&narrow(sizes), time);
        self.state.variables = sizes.len();
        self.state.known = [false; 128];
        Ok(())
    }
}
