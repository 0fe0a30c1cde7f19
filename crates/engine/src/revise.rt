// One variable is held against the other end of one constraint.
ghost use Rattle.std.specs.Prelude.{◌≡◌, ℕ, ◌+◌, ◌^◌, ◌<◌, ◌≤◌, true, false, not, ◌&&◌, bit_and, MatchOption, ◌==◌};
ghost use Rattle.domains.specs.Model.{arcs_of, shown, total};
ghost use Rattle.domains.specs.Sound.{Facing, RevisedBelow, Revising, Shape, Sound, Went};

use crate::value::Value;
use crate::values::put_out;
use domains::{Arc, Constraints, Domains};

// The constraint as seen from the variable, or nothing where it is not in or does not tie the variable.
pub(crate) fn arc_at(c: &Constraints, variable: usize, constraint: usize) -> Option<Arc>
    requires low { constraint < 128 }
    requires shape { Shape c.now }
    ensures { MatchOption result ((arcs_of c.now).on variable constraint ≡ false) (λ a. Facing c.now a × (a.near ≡ variable) × (a.constraint ≡ constraint)) }
{
    if !c.present[constraint] {
        return None;
    }
    let left = c.ends[constraint].left as usize;
    let right = c.ends[constraint].right as usize;
    if left == variable {
        Some(Arc {
            constraint,
            near: left,
            far: right,
            rows: 2 * constraint,
        })
    } else if right == variable {
        Some(Arc {
            constraint,
            near: right,
            far: left,
            rows: 2 * constraint + 1,
        })
    } else {
        None
    }
}

// Is the value shown, with none of the supports in its row?
#[inline(always)]
fn is_bare(d: &Domains, at: Value, row: u64, supports: u64) -> bool
    ensures { result ≡ (shown d.now at.variable at.value && bit_and supports row == 0) }
{
    bits::has(d.sets[at.variable], at.value) && supports & row == 0
}

// Puts out exactly the values of the arc's near variable that have no support at the far one; says whether there were any.
pub(crate) fn revise(c: &Constraints, d: &mut Domains, arc: Arc) -> bool
    requires facing { Facing c.now arc }
    requires sound { Sound c.now d.old }
    requires time { d.old.clock + total d.old.sets < 2 ^ 32 }
    ensures revised { Revising c.now d.old d.new arc 64 }
    ensures changed { result ≡ not (d.new.clock == d.old.clock) }
{
    let supports = d.sets[arc.far];
    let before = d.clock;
    for (x, row) in c.rows[arc.rows].iter().enumerate() {
        let at = Value {
            variable: arc.near,
            value: x,
        };
        if is_bare(d, at, *row, supports) {
            put_out(d, at, arc.constraint);
        }
    }
    d.clock != before
}
