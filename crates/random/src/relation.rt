// What one constraint allows.
ghost use Rattle.std.specs.Prelude.{◌≡◌, ℕ, Bool, ◌&&◌, nat_lt};

// Which values of a constraint's left end it allows beside which of its right end.
pub trait Relation {
    ghost allowed: { Self → ℕ → ℕ → Bool };

    // Does it allow x beside y, both below 64?
    fn allows(&self, x: usize, y: usize) -> bool
        ensures { result ≡ (nat_lt x 64 && (nat_lt y 64 && allowed self.now x y)) };
}
