ghost use Rattle.std.specs.Prelude.{◌≡◌, ℕ, ◌+◌, ◌<◌, ◌≤◌, true, false, ◌⊎◌, length, IfOk, MatchBool, is_ok, slice_index};
ghost use Rattle.std.specs.Result.{result_err};
ghost use Rattle.domains.specs.Make.{no_constraints, no_domains, no_justifications};
ghost use Rattle.domains.specs.Stands.{Loaded};
ghost use Rattle.domains.specs.Sound.{Shape};
ghost use Rattle.engine.specs.Calls.{Loadable, Opened, can_load, load_fault};

use super::Engine;
use crate::fault::LoadFault;
use domains::{
    Constraints, Domains, Ends, capped, full, no_constraints, no_domains, no_justifications,
};

// May the constraint be given these ends? They are two numbers still, which only the test shows to be ends.
fn check_load(
    c: &Constraints,
    constraint: usize,
    left: usize,
    right: usize,
) -> Result<Ends, LoadFault>
    ensures fault { result_err result ≡ load_fault c.now constraint left right }
    ensures ends { IfOk result (λ ends. (ends.left ≡ left) × (ends.right ≡ right)) }
{
    if constraint >= 128 {
        return Err(LoadFault::NoSuchConstraint);
    }
    if c.present[constraint] {
        return Err(LoadFault::AlreadyIn);
    }
    if left >= 32 || right >= 32 {
        return Err(LoadFault::EndOutside);
    }
    if left == right {
        return Err(LoadFault::SameEnds);
    }
    Ok(Ends {
        left: left as u8,
        right: right as u8,
    })
}

// Gives a constraint that is not in its ends and its rows.
fn write(c: &mut Constraints, constraint: usize, ends: Ends, rows: &[u64; 64])
    requires loadable { Loadable c.old constraint ends.left ends.right }
    requires shape { Shape c.old }
    ensures loaded { Loaded c.old c.new constraint ends.left ends.right rows.now }
    ensures shape { Shape c.new }
{
    let turned = catalog::supports::turned(rows);
    c.ends[constraint] = ends;
    c.rows[2 * constraint] = *rows;
    c.rows[2 * constraint + 1] = turned;
}

// Shows these sets from this time on, with justifications that say nothing.
fn begin(d: &mut Domains, sets: [u64; 32], time: u32)
    ensures sets { d.new.sets ≡ sets }
    ensures why { d.new.why ≡ no_justifications }
    ensures clock { d.new.clock ≡ time }
{
    d.sets = sets;
    d.why = no_justifications();
    d.clock = time;
}

impl Engine {
    // No variables, no constraint in, at time 0.
    pub fn new() -> Engine
        ensures constraints { result.constraints ≡ no_constraints }
        ensures domains { result.domains ≡ no_domains }
    {
        Engine {
            constraints: no_constraints(),
            domains: no_domains(),
        }
    }

    // Takes every constraint out, shows every value below the sizes, and fills the justifications anew.
    pub fn open(&mut self, sizes: &[u8], time: u32)
        ensures { Opened self.old.constraints self.new.constraints self.new.domains sizes.now time }
    {
        let sizes = capped(sizes);
        let sets = full(&sizes);
        self.constraints.sizes = sizes;
        self.constraints.present = [false; 128];
        begin(&mut self.domains, sets, time);
    }

    // Gives a constraint that is not in its two ends and, for each value of the left one, the set of those that may stand beside it.
    pub fn load(
        &mut self,
        constraint: usize,
        left: usize,
        right: usize,
        rows: &[u64; 64],
    ) -> Result<(), LoadFault>
        ensures can { is_ok result ≡ can_load self.old.constraints constraint left right }
        ensures fault { result_err result ≡ load_fault self.old.constraints constraint left right }
        ensures loaded { MatchBool (is_ok result) (Loaded self.old.constraints self.new.constraints constraint left right rows.now) (self.new.constraints ≡ self.old.constraints) }
        ensures domains { self.new.domains ≡ self.old.domains }
    {
        let ends = check_load(&self.constraints, constraint, left, right)?;
        write(&mut self.constraints, constraint, ends, rows);
        Ok(())
    }
}
