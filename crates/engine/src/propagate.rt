// The queue of constraints is emptied; afterwards each constraint that is in is consistent.
// The queue and its marks are two parameters: a struct of both was tried, with the queue in it by value and by `&mut`, and the proof did not
// close, since it is not known then what the lender of the buffer gets back (the queue itself holds a `&mut [T]`). Constraints and domains are two as well,
// since the first are only read: of one struct each function would have to promise that the constraints stay. `Sound` and the time that is left are asked of
// both each time: within a call they hold in part only, and a type for each stage would be no plainer. `Shape` is asked beside it: a type of the engine's own
// around the constraints would be one step more in every public clause that speaks of them. That a constraint lies below 128 is asked of its number: a type
// of one number would be wrapped where it comes from the queue's bytes, a loop or an arc, and unwrapped in each clause that names it, nearly all of these.
ghost use Rattle.std.specs.Prelude.{◌≡◌, ℕ, ◌+◌, ◌^◌, ◌<◌, ◌≤◌, true, false, ◌≢◌, Some, slice_index_or, slice_set};
ghost use Rattle.arcs.specs.Family.{Consistent};
ghost use Rattle.engine.specs.Waiting.{Kept};
ghost use Rattle.domains.specs.Model.{arcs_of, shown, total};
ghost use Rattle.domains.specs.Sound.{Facing, Revising, Settled, SettledBut, Shape, Sound, Went};
ghost use Rattle.engine.specs.Queued.{Queued};

use crate::fifo::Queue;
use crate::revise::{arc_at, revise};
use domains::{Arc, Constraints, Domains};

// Does the constraint, if it is in, tie the variable?
pub(crate) fn ties(c: &Constraints, variable: usize, constraint: usize) -> bool
    requires low { constraint < 128 }
    ensures { result ≡ (arcs_of c.now).on variable constraint }
{
    if !c.present[constraint] {
        return false;
    }
    let ends = c.ends[constraint];
    ends.left as usize == variable || ends.right as usize == variable
}

// Lets the constraint wait, unless it does already.
pub(crate) fn enqueue(q: &mut Queue<'_, u8>, marks: &mut [bool; 128], constraint: usize)
    requires low { constraint < 128 }
    requires queued { Queued q.old marks.old }
    ensures queued { Queued q.new marks.new }
    ensures kept { Kept q.old q.new }
    ensures marks { marks.new ≡ slice_set marks.old constraint true }
{
    if !marks[constraint] {
        marks[constraint] = true;
        let _ = q.push(constraint as u8);
    }
}

// Lets every constraint that ties the variable wait, but for one.
pub(crate) fn enqueue_at(
    c: &Constraints,
    q: &mut Queue<'_, u8>,
    marks: &mut [bool; 128],
    variable: usize,
    except: Option<usize>,
)
    requires queued { Queued q.old marks.old }
    ensures queued { Queued q.new marks.new }
    ensures kept { Kept q.old q.new }
    ensures more { (p : ℕ) → slice_index_or marks.old p false ≡ true → slice_index_or marks.new p false ≡ true }
    ensures waits { (p : ℕ) → (arcs_of c.now).on variable p ≡ true → (Some p ≢ except) → slice_index_or marks.new p false ≡ true }
{
    for p in 0..128 {
        if Some(p) != except && ties(c, variable, p) {
            enqueue(q, marks, p);
        }
    }
}

// Revises one arc of a constraint; if values went out, the other constraints at their variable wait.
pub(crate) fn settle(
    c: &Constraints,
    d: &mut Domains,
    q: &mut Queue<'_, u8>,
    marks: &mut [bool; 128],
    arc: Arc,
)
    requires shape { Shape c.now }
    requires facing { Facing c.now arc }
    requires sound { Sound c.now d.old }
    requires time { d.old.clock + total d.old.sets < 2 ^ 32 }
    requires queued { Queued q.old marks.old }
    requires settled { SettledBut c.now d.old marks.old arc.constraint }
    ensures revised { Revising c.now d.old d.new arc 64 }
    ensures queued { Queued q.new marks.new }
    ensures kept { Kept q.old q.new }
    ensures settled { SettledBut c.now d.new marks.new arc.constraint }
    ensures idle { d.new.clock ≡ d.old.clock → q.new.len ≡ q.old.len }
{
    if revise(c, d, arc) {
        enqueue_at(c, q, marks, arc.near, Some(arc.constraint));
    }
}

// Makes one constraint consistent, from both of its ends.
pub(crate) fn visit(
    c: &Constraints,
    d: &mut Domains,
    q: &mut Queue<'_, u8>,
    marks: &mut [bool; 128],
    constraint: usize,
)
    requires low { constraint < 128 }
    requires shape { Shape c.now }
    requires sound { Sound c.now d.old }
    requires time { d.old.clock + total d.old.sets < 2 ^ 32 }
    requires queued { Queued q.old marks.old }
    requires settled { SettledBut c.now d.old marks.old constraint }
    ensures sound { Sound c.now d.new }
    ensures went { Went c.now d.old d.new }
    ensures queued { Queued q.new marks.new }
    ensures kept { Kept q.old q.new }
    ensures settled { Settled c.now d.new marks.new }
    ensures idle { d.new.clock ≡ d.old.clock → q.new.len ≡ q.old.len }
{
    let left = c.ends[constraint].left as usize;
    let Some(there) = arc_at(c, left, constraint) else {
        return;
    };
    let Some(back) = arc_at(c, there.far, constraint) else {
        return;
    };
    settle(c, d, q, marks, there);
    settle(c, d, q, marks, back);
}

// Visits constraints until none waits.
pub(crate) fn propagate(
    c: &Constraints,
    d: &mut Domains,
    q: &mut Queue<'_, u8>,
    marks: &mut [bool; 128],
)
    requires shape { Shape c.now }
    requires sound { Sound c.now d.old }
    requires time { d.old.clock + total d.old.sets < 2 ^ 32 }
    requires queued { Queued q.old marks.old }
    requires settled { Settled c.now d.old marks.old }
    ensures sound { Sound c.now d.new }
    ensures went { Went c.now d.old d.new }
    ensures kept { Kept q.old q.new }
    ensures consistent { Consistent (arcs_of c.now) (shown d.new) }
{
    while let Some(p) = q.pop() {
        let p = p as usize;
        marks[p] = false;
        visit(c, d, q, marks, p);
    }
}
