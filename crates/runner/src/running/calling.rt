// The calls of a run, one by one.
ghost use Rattle.std.specs.Prelude.{◌≡◌, ◌<◌, [], ◌∷◌, length};
ghost use Rattle.network.specs.Requests.{call_of};
ghost use Rattle.network.specs.Served.{Stands};
ghost use Rattle.network.specs.Calls.{asks_domain, opens};
ghost use Rattle.network.specs.declared.law.Answer.TheVariants.{Domain as Gives, Opened as IsOpened};
ghost use Rattle.network.specs.Moment.{Blank, Right};
ghost use Rattle.sheet_catalog.specs.Sizes.{listed};
ghost use Rattle.runner.specs.Led.{Led, MadeOne, moment_at, sizes_at};
ghost use Rattle.runner.specs.Runs.{move_call, whole};

use super::Running;
use crate::faults::RunFault;
use crate::outcomes::outcome_of;
use catalog::Catalog;
use domains::Returning;
use network::{Answer, Call, Change, Lent, Network};
use sheet::Move;
use sheet_catalog::sizes::Sizes;

// As much as any call may need of the buffers.
const WHOLE: Lent = Lent {
    waiting: 128,
    returning: 2048,
};

// No `From`: both types are other crates', of which neither sees the other.
fn call_of<'a>(m: Move) -> Call<'a>
    ensures { call_of whole result ≡ move_call m }
{
    match m {
        Move::Add(p) => Call::Add {
            constraint: p as usize,
            lent: WHOLE,
        },
        Move::Retract(p) => Call::Retract {
            constraint: p as usize,
            lent: WHOLE,
        },
    }
}

impl<C: Catalog> Running<C> {
    // On the catalog, with no variable and no constraint in.
    pub(super) fn new(catalog: C) -> Running<C>
        ensures catalog { result.network.catalog ≡ catalog }
        ensures stands { Stands C.Catalog.meaning result.network }
        ensures blank { Blank (moment_at result) }
        ensures right { Right (C.Catalog.meaning catalog) (moment_at result) }
    {
        Running {
            network: Network::new(catalog),
            waiting: [0; 128],
            returning: [Returning::default(); 2048],
        }
    }

    // One call, with its answer.
    fn perform(&mut self, call: Call<'_>) -> Answer
        requires { Stands C.Catalog.meaning self.old.network }
        ensures { Led C.Catalog.meaning self.old (call_of whole call.entry ∷ []) (result ∷ []) self.new }
    {
        let mut answers = [Answer::Opened];
        self.network.perform(
            &[call],
            &mut answers,
            &mut self.waiting,
            &mut self.returning,
        );
        answers[0]
    }

    // Opens the network at time 0 with these sizes, which it takes.
    pub(super) fn open(&mut self, sizes: &Sizes)
        requires { Stands C.Catalog.meaning self.old.network }
        ensures led { Led C.Catalog.meaning self.old (opens (listed sizes.now) 0 ∷ []) (IsOpened ∷ []) self.new }
        ensures sizes { sizes_at self.new ≡ listed sizes.now }
    {
        self.perform(Call::Open {
            sizes: sizes.as_slice(),
            time: 0,
        });
    }

    // Makes the move that has so many before it.
    #[tactic(auto, using(crate::proofs::Leading::move_known, crate::proofs::Leading::made_one))]
    pub(super) fn make(&mut self, m: Move, before: usize) -> Result<Change, RunFault>
        requires { Stands C.Catalog.meaning self.old.network }
        ensures { MadeOne C.Catalog.meaning self.old before m result self.new }
    {
        let answer = self.perform(call_of(m));
        match outcome_of(answer, before) {
            Some(outcome) => outcome,
            None => unreachable!(),
        }
    }

    // The domain of a variable.
    pub(super) fn domain(&mut self, variable: usize) -> u64
        requires stands { Stands C.Catalog.meaning self.old.network }
        requires low { variable < length (sizes_at self.old) }
        ensures led { Led C.Catalog.meaning self.old (asks_domain variable ∷ []) (Gives result ∷ []) self.new }
        ensures sizes { sizes_at self.new ≡ sizes_at self.old }
    {
        match self.perform(Call::Domain(variable)) {
            Answer::Domain(domain) => domain,
            _ => unreachable!(),
        }
    }
}
