ghost use Rattle.std.specs.Prelude.{◌≡◌, ◌+◌, ◌-◌, ◌<◌, ◌≤◌, min, nat_lt, [], ◌∷◌, ◌++◌, length, if◌then◌else◌, MatchOption, IfErr, is_ok};
ghost use Rattle.engine.specs.Waiting.{Kept, Over, waits};

use super::Queue;

impl<'a, T: Copy> Queue<'a, T> {
    // An empty queue over the buffer, for at most `limit` entries and no more than the buffer has.
    pub fn new(buffer: &'a mut [T], limit: usize) -> Queue<'a, T>
        ensures waiting { waits result ≡ [] }
        ensures len { result.len ≡ 0 }
        ensures limit { result.limit ≡ min limit (length buffer.old) }
        ensures over { Over result buffer.entry }
    {
        let limit = limit.min(buffer.len());
        Queue::empty(buffer, limit)
    }

    fn empty(buffer: &'a mut [T], limit: usize) -> Queue<'a, T>
        requires { limit ≤ length buffer.old }
        ensures waiting { waits result ≡ [] }
        ensures len { result.len ≡ 0 }
        ensures limit { result.limit ≡ limit }
        ensures over { Over result buffer.entry }
    {
        Queue {
            buffer,
            limit,
            head: 0,
            len: 0,
        }
    }

    // Where the next entry goes: after the last one, from the start again past the limit.
    fn tail(&self) -> usize
        requires { self.now.len < self.now.limit }
        ensures { result ≡ (if nat_lt self.now.len (self.now.limit - self.now.head) then self.now.head + self.now.len else self.now.len - (self.now.limit - self.now.head)) }
    {
        let to_end = self.limit - self.head;
        if self.len < to_end {
            self.head + self.len
        } else {
            self.len - to_end
        }
    }

    // Where the first entry stands: at the head, or at the start where the head has come to the limit.
    fn start(&self) -> usize
        ensures { result ≡ (if nat_lt self.now.head self.now.limit then self.now.head else 0) }
    {
        if self.head < self.limit { self.head } else { 0 }
    }

    // One more at the end, or the entry back and nothing altered where there is no room.
    pub fn push(&mut self, entry: T) -> Result<(), T>
        ensures fits { is_ok result ≡ nat_lt self.old.len self.old.limit }
        ensures waiting { waits self.new ≡ (if is_ok result then waits self.old ++ (entry ∷ []) else waits self.old) }
        ensures len { self.new.len ≡ (if is_ok result then self.old.len + 1 else self.old.len) }
        ensures back { IfErr result (λ back. back ≡ entry) }
        ensures kept { Kept self.old self.new }
    {
        if self.len >= self.limit {
            return Err(entry);
        }
        let place = self.tail();
        self.buffer[place] = entry;
        self.len += 1;
        Ok(())
    }

    // The one that has waited longest.
    pub fn pop(&mut self) -> Option<T>
        ensures waiting { MatchOption result ((waits self.old ≡ []) × (waits self.new ≡ [])) (λ x. waits self.old ≡ x ∷ waits self.new) }
        ensures len { MatchOption result ((self.old.len ≡ 0) × (self.new.len ≡ 0)) (λ _. self.new.len + 1 ≡ self.old.len) }
        ensures kept { Kept self.old self.new }
    {
        if self.len == 0 {
            return None;
        }
        let head = self.start();
        let entry = self.buffer[head];
        self.head = head + 1;
        self.len -= 1;
        Some(entry)
    }
}
