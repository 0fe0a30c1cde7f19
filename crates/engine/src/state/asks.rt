ghost use Rattle.std.specs.Prelude.{◌≡◌, ℕ, ◌<◌, false, ◌==◌, slice_index};
ghost use Rattle.arcs.specs.WipedOut.{WipedOut};
ghost use Rattle.domains.specs.Model.{entry, is_present, shown};
ghost use Rattle.engine.specs.Calls.{justification_of};

use super::Engine;
use crate::value::Value;
use catalog::supports::wiped_out;
use domains::{Domains, Justification};

// What stands of the value.
fn read(d: &Domains, at: Value) -> Justification
    ensures { result ≡ entry d.now.why at.variable at.value }
{
    d.why[at.variable][at.value]
}

impl Engine {
    // How many values the variable has.
    pub fn size(&self, variable: usize) -> usize
        ensures { result ≡ slice_index self.now.constraints.sizes variable }
    {
        self.constraints
            .sizes
            .get(variable)
            .map_or(0, |size| *size as usize)
    }

    // The set of the variable's values that are shown.
    pub fn domain(&self, variable: usize) -> u64
        ensures { result ≡ slice_index self.now.domains.sets variable }
    {
        self.domains.sets.get(variable).copied().unwrap_or(0)
    }

    pub fn is_in(&self, constraint: usize) -> bool
        ensures { result ≡ is_present self.now.constraints constraint }
    {
        self.constraints
            .present
            .get(constraint)
            .copied()
            .unwrap_or(false)
    }

    pub fn clock(&self) -> u32
        ensures { result ≡ self.now.domains.clock }
    {
        self.domains.clock
    }

    // The justification of the value if it is out.
    pub fn justification(&self, variable: usize, value: usize) -> Option<Justification>
        ensures { result ≡ justification_of self.now.constraints self.now.domains variable value }
    {
        if value >= self.size(variable) {
            return None;
        }
        if bits::has(self.domain(variable), value) {
            return None;
        }
        Some(read(&self.domains, Value { variable, value }))
    }

    // The lowest of the first n variables that has no value left; past the 32 variables there is none.
    pub fn wiped_out(&self, n: usize) -> Option<usize>
        ensures { WipedOut (shown self.now.domains) n result }
    {
        wiped_out(&self.domains.sets, n)
    }
}
