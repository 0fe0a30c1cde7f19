ghost use Rattle.std.specs.Prelude.{◌≡◌, ℕ, ◌+◌, ◌<◌, ◌≤◌, true, false, length, is_some, MatchOption};
ghost use Rattle.domains.specs.Model.{total};
ghost use Rattle.domains.specs.Stands.{Past, Stands};
ghost use Rattle.engine.specs.Calls.{Added, Retracted, can_add, can_retract};

use super::Engine;
use domains::{Domains, Ends, Returning, is_spent};

// How many values are shown. A `for`: with `map` and `sum` it was tried, and the bound that `sum` asks did not close.
fn count(d: &Domains) -> u32
    ensures { result ≡ total d.now.sets }
{
    let mut n = 0;
    for set in &d.sets {
        n += set.count_ones();
    }
    n
}

impl Engine {
    // May the constraint go in, with a buffer of so many entries?
    fn can_add(&self, constraint: usize, waiting: usize) -> bool
        ensures { result ≡ can_add self.now.constraints self.now.domains constraint waiting }
    {
        if constraint >= 128 {
            return false;
        }
        let Ends { left, right } = self.constraints.ends[constraint];
        if self.constraints.present[constraint] || left == right {
            return false;
        }
        waiting >= 128 && !is_spent(self.domains.clock)
    }

    // May it go out?
    fn can_retract(&self, constraint: usize, waiting: usize, returning: usize) -> bool
        ensures { result ≡ can_retract self.now.constraints self.now.domains constraint waiting returning }
    {
        if constraint >= 128 || !self.constraints.present[constraint] {
            return false;
        }
        waiting >= 128 && returning >= 2048 && !is_spent(self.domains.clock)
    }

    // Puts the constraint in and says how many values went out, or nothing where it cannot go in.
    pub fn add(&mut self, constraint: usize, waiting: &mut [u8]) -> Option<u32>
        ensures can { is_some result ≡ can_add self.old.constraints self.old.domains constraint (length waiting.old) }
        ensures added { MatchOption result ((self.new.constraints ≡ self.old.constraints) × (self.new.domains ≡ self.old.domains) × (waiting.new ≡ waiting.old)) (λ n. Added self.old.constraints self.new.constraints self.old.domains self.new.domains constraint n) }
        ensures past { Past 128 waiting.old waiting.new }
    {
        if !self.can_add(constraint, waiting.len()) {
            return None;
        }
        let before = self.domains.clock;
        self.insert(constraint, waiting);
        Some(self.domains.clock - before)
    }

    // Takes the constraint out and says how many values came back, or nothing where it cannot go out.
    pub fn retract(
        &mut self,
        constraint: usize,
        waiting: &mut [u8],
        returning: &mut [Returning],
    ) -> Option<u32>
        ensures can { is_some result ≡ can_retract self.old.constraints self.old.domains constraint (length waiting.old) (length returning.old) }
        ensures retracted { MatchOption result ((self.new.constraints ≡ self.old.constraints) × (self.new.domains ≡ self.old.domains) × (waiting.new ≡ waiting.old) × (returning.new ≡ returning.old)) (λ n. Retracted self.old.constraints self.new.constraints self.old.domains self.new.domains constraint n) }
        ensures past { Past 128 waiting.old waiting.new }
        ensures past_returning { Past 2048 returning.old returning.new }
    {
        if !self.can_retract(constraint, waiting.len(), returning.len()) {
            return None;
        }
        let before = count(&self.domains);
        self.remove(constraint, waiting, returning);
        Some(count(&self.domains) - before)
    }
}
