// A constraint goes in or out, and the domains follow.
ghost use Rattle.std.specs.Prelude.{◌≡◌, ℕ, ◌+◌, ◌<◌, ◌≤◌, true, false, length, ◌≢◌, slice_index, slice_index_or};
ghost use Rattle.arcs.specs.Family.{Inside};
ghost use Rattle.arcs.specs.Changes.{Dated, Released, Same};
ghost use Rattle.arcs.specs.Standing.{Out, Rests};
ghost use Rattle.engine.specs.Waiting.{Kept};
ghost use Rattle.domains.specs.Model.{arcs_of, left_of, reason_is, right_of, shown, standing, within};
ghost use Rattle.domains.specs.Sound.{Rose, Went};
ghost use Rattle.domains.specs.Stands.{Past, Stands, last_time, with_present};
ghost use Rattle.engine.specs.Queued.{Queued};

use super::Engine;
use crate::fifo::Queue;
use crate::propagate::{enqueue, enqueue_at, propagate};
use crate::release::release;
use domains::{Constraints, Domains, Returning};

// Lets every constraint at a variable whose set has changed wait.
fn enqueue_changed(
    c: &Constraints,
    q: &mut Queue<'_, u8>,
    marks: &mut [bool; 128],
    before: &[u64; 32],
    after: &[u64; 32],
)
    requires queued { Queued q.old marks.old }
    ensures queued { Queued q.new marks.new }
    ensures kept { Kept q.old q.new }
    ensures waits { (i r : ℕ) → i < 32 → (slice_index after.now i ≢ slice_index before.now i) → (arcs_of c.now).on i r ≡ true → slice_index_or marks.new r false ≡ true }
{
    for (i, (old, new)) in before.iter().zip(after).enumerate() {
        if new != old {
            enqueue_at(c, q, marks, i, None);
        }
    }
}

// Puts back what rests on the constraint, by way of the lent buffer. No method of an engine: constraints and domains do not stand together after it.
fn release_through(c: &Constraints, d: &mut Domains, returning: &mut [Returning], constraint: usize)
    requires low { constraint < 128 }
    requires stands { Stands c.now d.old }
    requires long { 2048 ≤ length returning.old }
    ensures released { Released (arcs_of c.now) (within c.now) (reason_is constraint) (standing d.old) (standing d.new) }
    ensures inside { Inside (within c.now) (shown d.new) }
    ensures clock { d.new.clock ≡ d.old.clock }
    ensures past { Past 2048 returning.old returning.new }
{
    let mut q = Queue::new(returning, 2048);
    release(c, d, &mut q, constraint);
}

impl Engine {
    // Puts the constraint in, and out what it leaves without support.
    pub(super) fn insert(&mut self, constraint: usize, waiting: &mut [u8])
        requires low { constraint < 128 }
        requires apart { left_of self.old.constraints constraint ≢ right_of self.old.constraints constraint }
        requires time { self.old.domains.clock ≤ last_time }
        requires long { 128 ≤ length waiting.old }
        ensures present { self.new.constraints ≡ with_present self.old.constraints constraint true }
        ensures went { Went self.new.constraints self.old.domains self.new.domains }
        ensures past { Past 128 waiting.old waiting.new }
    {
        let Engine {
            constraints,
            domains,
        } = self;
        constraints.present[constraint] = true;
        let mut marks = [false; 128];
        let mut q = Queue::new(waiting, 128);
        enqueue(&mut q, &mut marks, constraint);
        propagate(constraints, domains, &mut q, &mut marks);
    }

    // Takes the constraint out, puts back what rests on it, and out again what is still without support.
    pub(super) fn remove(
        &mut self,
        constraint: usize,
        waiting: &mut [u8],
        returning: &mut [Returning],
    )
        requires low { constraint < 128 }
        requires time { self.old.domains.clock ≤ last_time }
        requires long { 128 ≤ length waiting.old }
        requires returns { 2048 ≤ length returning.old }
        ensures absent { self.new.constraints ≡ with_present self.old.constraints constraint false }
        ensures kept { (i x : ℕ) → Out (within self.old.constraints) (standing self.old.domains) i x → (Rests (arcs_of self.old.constraints) (within self.old.constraints) (standing self.old.domains) (reason_is constraint) i x → ⊥) → Same (standing self.old.domains) (standing self.new.domains) i x }
        ensures dated { Dated (within self.old.constraints) self.old.domains.clock (standing self.old.domains) (standing self.new.domains) }
        ensures grew { Inside (shown self.new.domains) (shown self.old.domains) }
        ensures rose { Rose self.old.constraints self.old.domains self.new.domains }
        ensures later { self.old.domains.clock ≤ self.new.domains.clock }
        ensures soon { self.new.domains.clock ≤ self.old.domains.clock + 2048 }
        ensures past { Past 128 waiting.old waiting.new }
        ensures past_returning { Past 2048 returning.old returning.new }
    {
        let Engine {
            constraints,
            domains,
        } = self;
        let before = domains.sets;
        release_through(constraints, domains, returning, constraint);
        constraints.present[constraint] = false;
        let mut marks = [false; 128];
        let mut q = Queue::new(waiting, 128);
        enqueue_changed(constraints, &mut q, &mut marks, &before, &domains.sets);
        propagate(constraints, domains, &mut q, &mut marks);
    }
}
