// One value goes out or comes back.
ghost use Rattle.std.specs.Prelude.{◌≡◌, ℕ, ◌+◌, ◌-◌, ◌^◌, ◌<◌, ◌≤◌, true, false, length, ◌≢◌, slice_index};
ghost use Rattle.arcs.specs.Changes.{PutOut, PutBack};
ghost use Rattle.domains.specs.Model.{shown, standing, total};

use crate::value::Value;
use domains::{Domains, Justification};

// The justification of a value that goes out by the constraint.
#[inline(always)]
fn reason(d: &Domains, constraint: usize) -> Justification
    ensures { result ≡ record { constraint = constraint; time = d.now.clock } }
{
    Justification {
        constraint,
        time: d.clock,
    }
}

// Puts the value out by the constraint, at the clock's time.
pub(crate) fn put_out(d: &mut Domains, at: Value, constraint: usize)
    requires time { d.old.clock + 1 < 2 ^ 32 }
    requires was { shown d.old at.variable at.value ≡ true }
    ensures put { PutOut (standing d.old) (standing d.new) at.variable at.value constraint d.old.clock }
    ensures clock { d.new.clock ≡ d.old.clock + 1 }
    ensures fewer { total d.new.sets + 1 ≡ total d.old.sets }
    ensures others { (j : ℕ) → (j ≢ at.variable) → slice_index d.new.sets j ≡ slice_index d.old.sets j }
{
    let why = reason(d, constraint);
    d.sets[at.variable] ^= 1 << at.value;
    d.why[at.variable][at.value] = why;
    d.clock += 1;
}

// Puts the value back.
pub(crate) fn put_back(d: &mut Domains, at: Value)
    requires was { shown d.old at.variable at.value ≡ false }
    ensures put { PutBack (standing d.old) (standing d.new) at.variable at.value }
    ensures clock { d.new.clock ≡ d.old.clock }
    ensures why { d.new.why ≡ d.old.why }
    ensures more { total d.new.sets ≡ total d.old.sets + 1 }
    ensures others { (j : ℕ) → (j ≢ at.variable) → slice_index d.new.sets j ≡ slice_index d.old.sets j }
{
    d.sets[at.variable] |= 1 << at.value;
}
