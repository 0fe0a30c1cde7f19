// Calls made one by one: the pattern for a program that makes its own.
ghost use Rattle.std.specs.Prelude.{◌≡◌, [], ◌∷◌};
ghost use Rattle.network.specs.ByHand.{answers_of};
ghost use Rattle.network.specs.Served.{Stands};
ghost use Rattle.network.specs.Calls.{adds, asks_domain, opens, retracts};
ghost use Rattle.network.specs.History.{Run};
ghost use Rattle.network.specs.Model.{moment_of};
ghost use Rattle.network.specs.Performs.{buffers, lengths_of};

use crate::law::Change;
use crate::network::Network;
use catalog::Catalog;
use catalog::refusal::Refusal;
use domains::Returning;

// What came of trying one constraint out.
#[derive(Clone, Copy, PartialEq, Eq, Debug)]
pub struct Tried {
    pub opened: Result<(), Refusal>,
    pub added: Result<Change, Refusal>,
    // the domain of the variable while the constraint is in
    pub under: Result<u64, Refusal>,
    pub retracted: Result<Change, Refusal>,
    // and after it went out
    pub after: Result<u64, Refusal>,
}

// Opens a network on the catalog, adds one constraint, asks for a variable's domain, retracts the constraint and asks again. The calls are made one by one,
// whether or not one is refused, and what they answer is the law of networks, since the network is linked to its catalog when it is made and after each call.
pub fn try_out<C: Catalog>(
    catalog: C,
    sizes: &[usize],
    constraint: usize,
    variable: usize,
    waiting: &mut [u8],
    returning: &mut [Returning],
) -> (Network<C>, Tried)
    ensures catalog { result.0.catalog ≡ catalog }
    ensures stands { Stands C.Catalog.meaning result.0 }
    ensures law { Run (C.Catalog.meaning catalog) (buffers waiting.old returning.old) (opens sizes.now 0 ∷ adds constraint (lengths_of waiting.old returning.old) ∷ asks_domain variable ∷ retracts constraint (lengths_of waiting.old returning.old) ∷ asks_domain variable ∷ []) (answers_of result.1) (moment_of result.0.state) (buffers waiting.new returning.new) }
{
    let mut network = Network::new(catalog);
    let opened = network.open(sizes, 0);
    let added = network.add(constraint, waiting, returning);
    let under = network.domain(variable);
    let retracted = network.retract(constraint, waiting, returning);
    let after = network.domain(variable);
    let tried = Tried {
        opened,
        added,
        under,
        retracted,
        after,
    };
    (network, tried)
}
