// Constraints go in and out. The two buffers are two parameters, since the public calls take them so, and the engine's calls, of which
// adding takes the first alone. That the catalog stays is said by each call: it is what the call leaves, and
// no fact of a value that a type could hold.
ghost use Rattle.std.specs.Prelude.{◌≡◌, false, length, IfOk, MatchResult, OnErr};
ghost use Rattle.arcs.specs.WipedOut.{WipedOut};
ghost use Rattle.domains.specs.Model.{shown};
ghost use Rattle.domains.specs.Stands.{Past};
ghost use Rattle.engine.specs.Calls.{Added, Retracted, can_add, can_retract};
ghost use Rattle.network.specs.Calls.{adds, retracts};
ghost use Rattle.network.specs.declared.law.Answer.TheVariants.{Changed};
ghost use Rattle.network.specs.Served.{ServesLent, Stands};
ghost use Rattle.network.specs.Performs.{answer_by, buffers, lengths_of};

use super::Network;
use super::checks::Lengths;
use crate::law::Change;
use catalog::Catalog;
use catalog::refusal::Refusal;
use domains::Returning;

impl<C: Catalog> Network<C> {
    // Puts a known constraint in.
    fn insert(&mut self, constraint: usize, waiting: &mut [u8]) -> Result<Change, Refusal>
        ensures catalog { self.new.catalog ≡ self.old.catalog }
        ensures added { MatchResult result (λ v. Added self.old.state.engine.constraints self.new.state.engine.constraints self.old.state.engine.domains self.new.state.engine.domains constraint v.values) (λ _. can_add self.old.state.engine.constraints self.old.state.engine.domains constraint (length waiting.old) ≡ false) }
        ensures wiped { IfOk result (λ v. WipedOut (shown self.new.state.engine.domains) self.old.state.variables v.wiped) }
        ensures variables { self.new.state.variables ≡ self.old.state.variables }
        ensures known { self.new.state.known ≡ self.old.state.known }
        ensures past { Past 128 waiting.old waiting.new }
    {
        let values = self
            .state
            .engine
            .add(constraint, waiting)
            .ok_or(Refusal::EndOutside)?;
        let wiped = self.lowest_empty();
        Ok(Change { values, wiped })
    }

    // Takes a constraint out that is in.
    fn remove(
        &mut self,
        constraint: usize,
        waiting: &mut [u8],
        returning: &mut [Returning],
    ) -> Result<Change, Refusal>
        ensures catalog { self.new.catalog ≡ self.old.catalog }
        ensures retracted { MatchResult result (λ v. Retracted self.old.state.engine.constraints self.new.state.engine.constraints self.old.state.engine.domains self.new.state.engine.domains constraint v.values) (λ _. can_retract self.old.state.engine.constraints self.old.state.engine.domains constraint (length waiting.old) (length returning.old) ≡ false) }
        ensures wiped { IfOk result (λ v. WipedOut (shown self.new.state.engine.domains) self.old.state.variables v.wiped) }
        ensures variables { self.new.state.variables ≡ self.old.state.variables }
        ensures known { self.new.state.known ≡ self.old.state.known }
        ensures past { Past 128 waiting.old waiting.new }
        ensures past_returning { Past 2048 returning.old returning.new }
    {
        let values = self
            .state
            .engine
            .retract(constraint, waiting, returning)
            .ok_or(Refusal::NotIn)?;
        let wiped = self.lowest_empty();
        Ok(Change { values, wiped })
    }

    // Adds the constraint: says how many values went out by it, and the wiped-out variable.
    pub fn add(
        &mut self,
        constraint: usize,
        waiting: &mut [u8],
        returning: &mut [Returning],
    ) -> Result<Change, Refusal>
        ensures catalog { self.new.catalog ≡ self.old.catalog }
        ensures performs { ServesLent C.Catalog.meaning self.old (buffers waiting.old returning.old) (adds constraint (lengths_of waiting.old returning.old)) (answer_by Changed result) self.new (buffers waiting.new returning.new) }
        ensures past { Past 128 waiting.old waiting.new }
        ensures returning { returning.new ≡ returning.old }
        ensures refused { Stands C.Catalog.meaning self.old → OnErr result (self.new.state ≡ self.old.state) }
        ensures unlent { Stands C.Catalog.meaning self.old → OnErr result (waiting.new ≡ waiting.old) }
    {
        let lengths = Lengths {
            waiting: waiting.len(),
            returning: returning.len(),
        };
        let (left, right) = self.check_add(constraint, lengths)?;
        self.know(constraint, left, right);
        self.insert(constraint, waiting)
    }

    // Retracts the constraint: says how many values came back, and the wiped-out variable.
    pub fn retract(
        &mut self,
        constraint: usize,
        waiting: &mut [u8],
        returning: &mut [Returning],
    ) -> Result<Change, Refusal>
        ensures catalog { self.new.catalog ≡ self.old.catalog }
        ensures performs { ServesLent C.Catalog.meaning self.old (buffers waiting.old returning.old) (retracts constraint (lengths_of waiting.old returning.old)) (answer_by Changed result) self.new (buffers waiting.new returning.new) }
        ensures past { Past 128 waiting.old waiting.new }
        ensures past_returning { Past 2048 returning.old returning.new }
        ensures refused { Stands C.Catalog.meaning self.old → OnErr result (self.new.state ≡ self.old.state) }
        ensures unlent { Stands C.Catalog.meaning self.old → OnErr result (waiting.new ≡ waiting.old) }
        ensures unlent_returning { Stands C.Catalog.meaning self.old → OnErr result (returning.new ≡ returning.old) }
    {
        let lengths = Lengths {
            waiting: waiting.len(),
            returning: returning.len(),
        };
        self.check_retract(constraint, lengths)?;
        self.remove(constraint, waiting, returning)
    }
}
