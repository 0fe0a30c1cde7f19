ghost use Rattle.std.specs.Prelude.{◌≤◌, length};

mod methods;

// Entries wait in the first `limit` entries of the buffer, `len` of them from `head` on and, past the limit, from the
// start again. The buffer is lent, as fixed memory: nothing that grows or owns its entries can stand in its place. All of it is
// kept, with a limit, and not its first part alone: `Over` and `Kept` speak of the slice that was lent, by which a caller knows what is left in it.
#[derive(Drop)]
pub struct Queue<'a, T> {
    buffer: &'a mut [T],
    limit: usize,
    head: usize,
    len: usize,
    ghost within: { limit ≤ length buffer.now },
    ghost turn: { head ≤ limit },
    ghost few: { len ≤ limit },
}
