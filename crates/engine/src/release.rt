// What rests on a constraint comes back. Constraints, domains and queue are three parameters, as propagate.rt says of its own.
ghost use Rattle.std.specs.Prelude.{◌≡◌, ℕ, ◌+◌, ◌<◌, ◌≤◌, true, false, not, ◌&&◌, [], ◌∷◌, ◌++◌, ◌==◌};
ghost use Rattle.arcs.specs.Family.{Inside};
ghost use Rattle.arcs.specs.Changes.{PutBack, Released};
ghost use Rattle.engine.specs.Waiting.{Kept, waits};
ghost use Rattle.bits.specs.Bits.{has_bit};
ghost use Rattle.domains.specs.Model.{arcs_of, entry, is_present, reason_is, row, shown, standing, total, within};
ghost use Rattle.domains.specs.Releasing.{Followed, Low, Releasing};
ghost use Rattle.domains.specs.Sound.{Facing, Shape, Sound};
ghost use Rattle.engine.specs.Returns.{FreesAmong, Grew, Spare};

use crate::fifo::Queue;
use crate::revise::arc_at;
use crate::value::Value;
use crate::values::put_back;
use domains::{Arc, Constraints, Domains, Ends, Returning};

// Is the value out, with a justification that names the constraint?
pub(crate) fn names(d: &Domains, at: Value, constraint: usize) -> bool
    ensures { result ≡ (not (shown d.now at.variable at.value) && (entry d.now.why at.variable at.value).constraint == constraint) }
{
    if bits::has(d.sets[at.variable], at.value) {
        return false;
    }
    d.why[at.variable][at.value].constraint == constraint
}

// Puts the value back and lets it wait.
pub(crate) fn free(d: &mut Domains, q: &mut Queue<'_, Returning>, at: Value)
    requires was { shown d.old at.variable at.value ≡ false }
    requires limit { q.old.limit ≡ 2048 }
    requires few { q.old.len ≤ total d.old.sets }
    ensures put { PutBack (standing d.old) (standing d.new) at.variable at.value }
    ensures clock { d.new.clock ≡ d.old.clock }
    ensures why { d.new.why ≡ d.old.why }
    ensures more { total d.new.sets ≡ total d.old.sets + 1 }
    ensures waiting { waits q.new ≡ waits q.old ++ (record { variable = at.variable; value = at.value; time = (entry d.old.why at.variable at.value).time } ∷ []) }
    ensures len { q.new.len ≡ q.old.len + 1 }
    ensures kept { Kept q.old q.new }
{
    put_back(d, at);
    let time = d.why[at.variable][at.value].time;
    let _ = q.push(Returning {
        variable: at.variable as u8,
        value: at.value as u8,
        time,
    });
}

// Puts back those values of the variable, among the ones of a set, whose justification names the constraint.
pub(crate) fn free_among(
    c: &Constraints,
    d: &mut Domains,
    q: &mut Queue<'_, Returning>,
    variable: usize,
    constraint: usize,
    among: u64,
)
    requires low { variable < 32 }
    requires shape { Shape c.now }
    requires spare { Spare c.now d.old q.old }
    ensures spare { Spare c.now d.new q.new }
    ensures grew { Grew d.old d.new q.old q.new }
    ensures frees { FreesAmong c.now d.old d.new (waits q.old) (waits q.new) variable constraint among }
    ensures freed { (x : ℕ) → within c.now variable x ≡ true → has_bit among x ≡ true → (entry d.new.why variable x).constraint ≡ constraint → shown d.new variable x ≡ true }
{
    let size = c.sizes[variable] as usize;
    for x in 0..size {
        if bits::has(among, x) {
            let at = Value { variable, value: x };
            if names(d, at, constraint) {
                free(d, q, at);
            }
        }
    }
}

// The values of the arc's far variable that may stand beside the value of its near one.
#[inline(always)]
fn beside(c: &Constraints, arc: Arc, value: u8) -> u64
    requires rows { arc.rows < 256 }
    requires value { value < 64 }
    ensures { result ≡ row c.now arc.rows value }
{
    c.rows[arc.rows][value as usize]
}

// Puts back every value which the value that came back stood beside, by a constraint that its justification names.
pub(crate) fn free_beside(
    c: &Constraints,
    d: &mut Domains,
    q: &mut Queue<'_, Returning>,
    returning: Returning,
)
    requires variable { returning.variable < 32 }
    requires value { returning.value < 64 }
    requires shape { Shape c.now }
    requires spare { Spare c.now d.old q.old }
    ensures spare { Spare c.now d.new q.new }
    ensures grew { Grew d.old d.new q.old q.new }
    ensures follows { (p : ℕ) (d₀ : Domains) → Releasing c.now p d₀ d.old (returning ∷ waits q.old) → Releasing c.now p d₀ d.new (waits q.new) }
{
    for p in 0..128 {
        if let Some(arc) = arc_at(c, returning.variable as usize, p) {
            let among = beside(c, arc, returning.value);
            free_among(c, d, q, arc.far, p, among);
        }
    }
}

// Puts back exactly the values whose justification rests on the constraint, first in, first out, each through the queue once.
pub(crate) fn release(
    c: &Constraints,
    d: &mut Domains,
    q: &mut Queue<'_, Returning>,
    constraint: usize,
)
    requires low { constraint < 128 }
    requires shape { Shape c.now }
    requires sound { Sound c.now d.old }
    requires limit { q.old.limit ≡ 2048 }
    requires empty { waits q.old ≡ [] }
    requires len { q.old.len ≡ 0 }
    ensures released { Released (arcs_of c.now) (within c.now) (reason_is constraint) (standing d.old) (standing d.new) }
    ensures inside { Inside (within c.now) (shown d.new) }
    ensures clock { d.new.clock ≡ d.old.clock }
    ensures more { total d.old.sets ≤ total d.new.sets }
    ensures kept { Kept q.old q.new }
{
    let all = bits::below(64);
    let Ends { left, right } = c.ends[constraint];
    free_among(c, d, q, left as usize, constraint, all);
    free_among(c, d, q, right as usize, constraint, all);
    while let Some(returning) = q.pop() {
        free_beside(c, d, q, returning);
    }
}
