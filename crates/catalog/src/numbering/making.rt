// Making a numbering, and reading it.
ghost use Rattle.std.specs.Prelude.{◌≡◌, ℕ, ◌<◌, length, if◌then◌else◌, Some, None, Decides, MatchOption, ◌≢◌, nat_lt};
ghost use Rattle.catalog.specs.Numbered.{entry, IsNumbering, EntryStands};

use crate::numbering::Numbering;
use std::array;

// Is entry `e` of the list below 32, and equal to none before it?
fn stands(list: &[usize], e: usize) -> bool
    requires { e < length list.now }
    ensures { Decides result (EntryStands list.now e) }
{
    list[e] < 32 && !list[..e].contains(&list[e])
}

// Does every entry?
fn all_stand(to: &[usize; 32]) -> bool
    ensures { Decides result ((e : ℕ) → e < 32 → EntryStands to.now e) }
{
    (0..32).all(|e| stands(to, e))
}

// each of the 32 numbers at its own place
fn in_order() -> [usize; 32]
    ensures wide { length result ≡ 32 }
    ensures own { (e : ℕ) → e < 32 → entry result e ≡ e }
{
    array::from_fn(|e| e)
}

impl Numbering {
    // The numbering that the list is, or none where it is not one.
    pub fn new(list: &[usize]) -> Option<Numbering>
        ensures { MatchOption result (IsNumbering list.now → ⊥) (λ n. (n.to ≡ list.now) × IsNumbering list.now) }
    {
        let to = list.try_into().ok()?;
        if all_stand(&to) {
            Some(Numbering { to })
        } else {
            None
        }
    }

    // Each variable keeps its number.
    pub fn identity() -> Numbering
        ensures { (e : ℕ) → e < 32 → entry result.to e ≡ e }
    {
        Numbering { to: in_order() }
    }

    // Entry `e`, where there is one.
    pub fn entry(&self, e: usize) -> Option<usize>
        ensures { result ≡ (if nat_lt e 32 then Some (entry self.now.to e) else None) }
    {
        self.to.get(e).copied()
    }

    // Entry `e` of those that there are.
    pub(crate) fn at(&self, e: usize) -> usize
        requires { e < 32 }
        ensures value { result ≡ entry self.now.to e }
        ensures low { result < 32 }
        ensures apart { (k : ℕ) → k < 32 → (k ≢ e) → result ≢ entry self.now.to k }
    {
        self.to[e]
    }
}
