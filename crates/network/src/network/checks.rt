// Whether a call may be answered.
ghost use Rattle.std.specs.Prelude.{◌≡◌, IfOk, Some, nat_lt};
ghost use Rattle.catalog.specs.Meaning.{ends_of};
ghost use Rattle.network.specs.Refusals.{lent_refusal, spent};
ghost use Rattle.network.specs.Performs.{add_cause, retract_cause, value_cause};
ghost use Rattle.std.specs.Result.{result_err};

use super::Network;
use catalog::Catalog;
use catalog::checks::check_constraint;
use catalog::refusal::Refusal;
use domains::is_spent;

// How long the lent buffers are.
#[derive(Clone, Copy)]
pub(super) struct Lengths {
    pub waiting: usize,
    pub returning: usize,
}

// Are the buffers long enough for a change, and is there time?
fn check_lent(lengths: Lengths, clock: u32) -> Result<(), Refusal>
    ensures { result_err result ≡ lent_refusal (record { waiting = lengths.waiting; returning = lengths.returning }) (spent clock) }
{
    if lengths.waiting < 128 || lengths.returning < 2048 {
        return Err(Refusal::ShortBuffer);
    }
    if is_spent(clock) {
        return Err(Refusal::ClockSpent);
    }
    Ok(())
}

impl<C: Catalog> Network<C> {
    // May the constraint be added? If so, its two ends.
    pub(super) fn check_add(
        &self,
        constraint: usize,
        lengths: Lengths,
    ) -> Result<(usize, usize), Refusal>
        ensures refused { result_err result ≡ add_cause (C.Catalog.meaning self.now.catalog) self.now.state constraint (record { waiting = lengths.waiting; returning = lengths.returning }) }
        ensures ends { IfOk result (λ e. Some e ≡ ends_of (C.Catalog.meaning self.now.catalog) constraint) }
    {
        let ends = check_constraint(&self.catalog, self.state.variables, constraint)?;
        if self.state.engine.is_in(constraint) {
            return Err(Refusal::AlreadyIn);
        }
        check_lent(lengths, self.state.engine.clock())?;
        Ok(ends)
    }

    // May the constraint be retracted?
    pub(super) fn check_retract(&self, constraint: usize, lengths: Lengths) -> Result<(), Refusal>
        ensures { result_err result ≡ retract_cause (C.Catalog.meaning self.now.catalog) self.now.state constraint (record { waiting = lengths.waiting; returning = lengths.returning }) }
    {
        if constraint >= self.catalog.count() {
            return Err(Refusal::NoSuchConstraint);
        }
        if !self.state.engine.is_in(constraint) {
            return Err(Refusal::NotIn);
        }
        check_lent(lengths, self.state.engine.clock())
    }

    // Is there such a variable?
    pub(super) fn has_variable(&self, variable: usize) -> bool
        ensures { result ≡ nat_lt variable self.now.state.variables }
    {
        variable < self.state.variables
    }

    // Is it a value of one of the variables?
    pub(super) fn check_value(&self, variable: usize, value: usize) -> Result<(), Refusal>
        ensures { result_err result ≡ value_cause self.now.state variable value }
    {
        if !self.has_variable(variable) {
            return Err(Refusal::NoSuchValue);
        }
        if value >= self.state.engine.size(variable) {
            return Err(Refusal::NoSuchValue);
        }
        Ok(())
    }
}
