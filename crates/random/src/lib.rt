// Numbers, catalogs and numberings that look like chance, the same for the same seed. They serve trials and cases alone.
#![tactic(auto)]

ghost use Rattle.std.specs.Prelude.{◌+◌, ◌-◌, ◌<◌, ◌≤◌, ◌^◌, ◌≡◌, max, min};
ghost use Rattle.random.specs.Xorshift.{below_at, number_at, shifted};

pub mod density;
pub mod drawn;
pub mod ends;
pub mod made;
pub mod relation;
mod sum;
pub mod table;

// The generator xorshift64*.
#[derive(Clone, Copy)]
pub struct Random {
    state: u64,
}

impl Random {
    // The generator that begins at this seed; a seed of 0, from which it would never move, counts as 1.
    pub fn new(seed: u64) -> Random
        ensures { result.state ≡ max seed 1 }
    {
        Random { state: seed.max(1) }
    }

    // The next number.
    fn draw(&mut self) -> u64
        ensures state { self.new.state ≡ shifted self.old.state }
        ensures value { result ≡ number_at self.old.state }
    {
        let mut x = self.state;
        x ^= x >> 12;
        x ^= x << 25;
        x ^= x >> 27;
        self.state = x;
        x.wrapping_mul(0x2545_f491_4f6c_dd1d)
    }

    // A number below `n`, or 0 where there is none. Not an `Option`: it is promised to give a number for any `n`, as `between` is.
    pub fn below(&mut self, n: usize) -> usize
        ensures state { self.new.state ≡ shifted self.old.state }
        ensures value { result ≡ below_at self.old.state n }
        ensures below { 0 < n → result < n }
        ensures least { result ≤ n }
    {
        let drawn = (self.draw() >> 16) as usize;
        if n == 0 { 0 } else { drawn % n }
    }

    // A number from `low` to `high`, or `low` where there is none.
    pub fn between(&mut self, low: usize, high: usize) -> usize
        ensures value { low < high → result ≡ low + below_at self.old.state (min (high - low + 1) (2 ^ 64 - 1)) }
        ensures low { low ≤ result }
        ensures high { low ≤ high → result ≤ high }
    {
        if low < high {
            low + self.below((high - low).saturating_add(1))
        } else {
            low
        }
    }
}
