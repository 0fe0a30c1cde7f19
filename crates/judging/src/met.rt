// Which causes of refusal a trial has met.
use catalog::refusal::Refusal;

// The causes, as a set of their numbers.
#[derive(Clone, Copy)]
pub struct Met {
    pub numbers: u64,
}

impl Met {
    pub const NONE: Met = Met { numbers: 0 };

    // The causes of either.
    pub fn joined(self, other: Met) -> Met {
        Met {
            numbers: self.numbers | other.numbers,
        }
    }

    // With the cause, where an answer is due to be a refusal.
    pub fn with(self, due: Option<Refusal>) -> Met {
        match due {
            Some(cause) => Met {
                numbers: bits::with(self.numbers, cause.number() as usize),
            },
            None => self,
        }
    }
}
