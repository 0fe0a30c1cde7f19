// A second solver, which serves the trials alone, for comparison with the first: the published algorithm AC|DC-2, arc by arc, with a neighbouring variable and a time as the
// justification of each value that is out. It shares no code with the engine but the catalogs, the sets of bits and the names of the causes of refusal.
//
// Proved of it: that it is safe, that every call ends, which calls are refused and by which cause, that a refused call leaves it as it was, and that one
// that is done puts in or takes out its constraint and no other. That its domains are the largest is only tried, by comparison.
//
// The algorithm is published for one constraint on each pair of variables. Here several may join one pair, and each is judged by itself:
// filtering asks for a support under each constraint alone, so the domains are those of all constraints and not of their conjunction. A
// justification names the neighbour and not the constraint. So a retraction puts back every value that any constraint between the
// two variables may have put out, and a value that gains a support under any of them: more than is needed, never less, since the one
// that did put it out is among them. The filtering at the end puts the surplus out again.
#![tactic(auto)]

ghost use Rattle.std.specs.Prelude.{◌≡◌, Err, IfOk, OnErr, false, slice_set, true};
ghost use Rattle.std.specs.Result.{result_err};
ghost use Rattle.catalog.specs.declared.refusal.Refusal.{Refusal};
ghost use Rattle.acdc2.specs.Causes.{add_cause, refused_by, retract_cause};
ghost use Rattle.acdc2.specs.State.{Opened, domain_of, why_of};
ghost use Rattle.acdc2.specs.declared.fault.Fault.TheVariants.{Refused};

use catalog::Catalog;
use catalog::refusal::Refusal;
use fault::Fault;
use marks::Marks;
use state::{Justification, State};
use std::alloc::{AllocError, Global};

mod arc;
pub mod fault;
mod filter;
mod marks;
mod restore;
pub mod state;

#[derive(Drop)]
pub struct Solver<'a, C> {
    catalog: &'a C,
    state: State,
}

impl<'a, C: Catalog> Solver<'a, C> {
    // A solver with these variables, all their values shown and no constraint in. Only sizes from 1 to 64 and at most 32 variables are meant.
    pub fn open(heap: Global, catalog: &'a C, sizes: &[usize]) -> Result<Solver<'a, C>, AllocError>
        ensures catalog { IfOk result (λ s. s.catalog.now ≡ catalog.now) }
        ensures opened { IfOk result (λ s. Opened sizes.now s.state) }
    {
        let state = State::new(heap, sizes)?;
        Ok(Solver { catalog, state })
    }

    // Adds the constraint `p`. Refused, and nothing is done, where there is none, where an end is not one of the variables, or where it is in.
    pub fn add(&mut self, p: usize) -> Result<(), Refusal>
        ensures refused { result_err result ≡ add_cause (C.Catalog.meaning self.old.catalog.now) self.old.state p }
        ensures present { IfOk result (λ _. self.new.state.present.marks ≡ slice_set self.old.state.present.marks p true) }
        ensures unchanged { OnErr result (self.new.state ≡ self.old.state) }
    {
        let (a, b) = self.catalog.ends(p).ok_or(Refusal::NoSuchConstraint)?;
        if a >= self.state.count() || b >= self.state.count() {
            return Err(Refusal::EndOutside);
        }
        if self.state.present.has(p) {
            return Err(Refusal::AlreadyIn);
        }
        self.state.present.set(p, true);
        self.filter(Marks::only(p));
        Ok(())
    }

    // Retracts the constraint `p`. Refused, and nothing is done, where there is none or where it is not in. Without memory the solver is left half-way:
    // open another.
    pub fn retract(&mut self, heap: Global, p: usize) -> Result<(), Fault>
        ensures refused { refused_by result ≡ retract_cause (C.Catalog.meaning self.old.catalog.now) self.old.state p }
        ensures present { IfOk result (λ _. self.new.state.present.marks ≡ slice_set self.old.state.present.marks p false) }
        ensures unchanged { (refusal : Refusal) → result ≡ Err (Refused refusal) → self.new.state ≡ self.old.state }
    {
        let ends = self.catalog.ends(p).ok_or(Refusal::NoSuchConstraint)?;
        if !self.state.present.has(p) {
            return Err(Fault::Refused(Refusal::NotIn));
        }
        self.remove(heap, p, ends)?;
        Ok(())
    }

    // The domain of the variable `i`: bit x for the value x. Empty where there is no such variable.
    pub fn domain(&self, i: usize) -> u64
        ensures { result ≡ domain_of self.now.state i }
    {
        self.state.domain(i)
    }

    // Why the value `x` of the variable `i` is out, where it is.
    pub fn justification(&self, i: usize, x: usize) -> Option<Justification>
        ensures { result ≡ why_of self.now.state i x }
    {
        self.state.why(i, x)
    }
}
