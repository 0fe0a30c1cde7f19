// What can be asked of a network.
ghost use Rattle.std.specs.Prelude.{◌≡◌};
ghost use Rattle.arcs.specs.WipedOut.{WipedOut};
ghost use Rattle.domains.specs.Model.{shown};
ghost use Rattle.network.specs.Calls.{asks_domain, asks_justification, asks_shown, asks_wiped};
ghost use Rattle.network.specs.declared.law.Answer.TheVariants.{Domain, Justified, Shown, Wiped};
ghost use Rattle.network.specs.Served.{Serves};
ghost use Rattle.network.specs.Performs.{answer_by};

use super::Network;
use catalog::Catalog;
use catalog::refusal::Refusal;
use domains::Justification;

impl<C: Catalog> Network<C> {
    // The values of the variable that are shown: bit x for the value x.
    pub fn domain(&self, variable: usize) -> Result<u64, Refusal>
        ensures { Serves C.Catalog.meaning self.now (asks_domain variable) (answer_by Domain result) self.now }
    {
        if !self.has_variable(variable) {
            return Err(Refusal::NoSuchValue);
        }
        Ok(self.state.engine.domain(variable))
    }

    // Does the engine show the value?
    fn shows(&self, variable: usize, value: usize) -> bool
        ensures { result ≡ shown self.now.state.engine.domains variable value }
    {
        bits::has(self.state.engine.domain(variable), value)
    }

    // Is the value shown?
    pub fn is_shown(&self, variable: usize, value: usize) -> Result<bool, Refusal>
        ensures { Serves C.Catalog.meaning self.now (asks_shown variable value) (answer_by Shown result) self.now }
    {
        self.check_value(variable, value)?;
        Ok(self.shows(variable, value))
    }

    // Why the value is out, or nothing where it is shown.
    pub fn justification(
        &self,
        variable: usize,
        value: usize,
    ) -> Result<Option<Justification>, Refusal>
        ensures { Serves C.Catalog.meaning self.now (asks_justification variable value) (answer_by Justified result) self.now }
    {
        self.check_value(variable, value)?;
        Ok(self.state.engine.justification(variable, value))
    }

    // The lowest of the variables of which the engine shows no value.
    pub(super) fn lowest_empty(&self) -> Option<usize>
        ensures { WipedOut (shown self.now.state.engine.domains) self.now.state.variables result }
    {
        self.state.engine.wiped_out(self.state.variables)
    }

    // The lowest variable with no value left, if there is one.
    pub fn wiped_out(&self) -> Option<usize>
        ensures { Serves C.Catalog.meaning self.now asks_wiped (Wiped result) self.now }
    {
        self.lowest_empty()
    }
}
