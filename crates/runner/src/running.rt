// The network of a run.
ghost use Rattle.std.specs.Prelude.{◌≡◌, length};

use domains::Returning;
use network::Network;

// The network of a run, and the buffers that are lent to its calls.
#[derive(Drop)]
pub struct Running<C> {
    network: Network<C>,
    waiting: [u8; 128],
    returning: [Returning; 2048],
    ghost wide: { length waiting ≡ 128 },
    ghost wide_returning: { length returning ≡ 2048 },
}

mod calling;
pub(crate) mod moving;
