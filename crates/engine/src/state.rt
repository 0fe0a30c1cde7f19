ghost use Rattle.domains.specs.Stands.{Stands};

use domains::{Constraints, Domains};

mod asks;
mod calls;
mod change;
mod setup;

// Constraints and domains that stand rightly together: the domains are the largest under the constraints that are in, and every other
// value has its justification.
#[derive(Drop)]
pub struct Engine {
    constraints: Constraints,
    domains: Domains,
    ghost stands: { ∥ Stands constraints domains ∥₁ },
}
