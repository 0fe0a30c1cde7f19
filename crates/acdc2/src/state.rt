// What the solver keeps of its variables and constraints.
ghost use Rattle.std.specs.Prelude.{◌≡◌, IfOk, None, length, replicate};
ghost use Rattle.acdc2.specs.State.{Opened, Whole, domain_of, why_of};

use crate::marks::Marks;
use std::alloc::{AllocError, Global};

// Why a value is out: the first neighbouring variable in which it lost all supports, and when.
#[derive(Clone, Copy)]
pub struct Justification {
    pub neighbour: usize,
    pub time: u64,
}

// A variable: the values that are shown, and for each that is out why it is.
#[derive(Clone, Copy)]
struct Variable {
    domain: u64,
    why: [Option<Justification>; 64],
}

// The variables, the constraints that are in, and the time. A variable and a value of it are two numbers throughout, as in the public questions: most
// loops run over the values of one variable.
#[derive(Drop)]
pub(crate) struct State {
    variables: Vec<Variable>,
    pub(crate) present: Marks,
    clock: u64,
}

impl Variable {
    // A variable with as many values, all shown.
    fn whole(size: usize) -> Variable
        ensures { Whole size result }
    {
        Variable {
            domain: bits::below(size),
            why: [None; 64],
        }
    }
}

impl State {
    // Every value shown and no constraint in.
    pub(crate) fn new(heap: Global, sizes: &[usize]) -> Result<State, AllocError>
        ensures { IfOk result (λ s. Opened sizes.now s) }
    {
        Ok(State {
            variables: sizes
                .iter()
                .map(|size| Variable::whole(*size))
                .collect(heap)?,
            present: Marks::none(),
            clock: 0,
        })
    }

    // How many variables there are.
    pub(crate) fn count(&self) -> usize
        ensures { result ≡ length self.now.variables.items }
    {
        self.variables.len()
    }

    // The values of `u` that are shown.
    pub(crate) fn domain(&self, u: usize) -> u64
        ensures { result ≡ domain_of self.now u }
    {
        match self.variables.get(u) {
            Some(variable) => variable.domain,
            None => 0,
        }
    }

    // Why the value `d` of `u` is out, if it is.
    pub(crate) fn why(&self, u: usize, d: usize) -> Option<Justification>
        ensures { result ≡ why_of self.now u d }
    {
        *self.variables.get(u)?.why.get(d)?
    }

    // Puts the value `d` of `u` out, since it lost all supports in `v`, and moves the clock on.
    pub(crate) fn put_out(&mut self, u: usize, d: usize, v: usize)
        ensures { self.new.present ≡ self.old.present }
    {
        let why = Justification {
            neighbour: v,
            time: self.clock,
        };
        self.clock = self.clock.wrapping_add(1);
        if let Some(variable) = self.variables.get_mut(u) {
            variable.domain = bits::without(variable.domain, d);
            if let Some(place) = variable.why.get_mut(d) {
                *place = Some(why);
            }
        }
    }

    // Shows the value `d` of `u` again.
    pub(crate) fn put_back(&mut self, u: usize, d: usize)
        ensures { self.new.present ≡ self.old.present }
    {
        if let Some(variable) = self.variables.get_mut(u) {
            variable.domain = bits::with(variable.domain, d);
            if let Some(place) = variable.why.get_mut(d) {
                *place = None;
            }
        }
    }
}
