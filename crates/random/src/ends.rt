// The two ends of a constraint.
ghost use Rattle.std.specs.Prelude.{◌<◌, ◌≡◌};

// Two different variables below 32. Not `domains::Ends`: that one is the engine's, and holds any two bytes, while what is promised here makes a drawn
// catalog lawful. Nor two fields of `Constraint`: all ends are drawn before any relation, and an array of pairs would lose the promise on the way.
#[derive(Clone, Copy)]
pub struct Ends {
    pub left: usize,
    pub right: usize,
    ghost left_low: { left < 32 },
    ghost right_low: { right < 32 },
    ghost apart: { left ≡ right → ⊥ },
}
