// The moves of a run, and the domains after them.
ghost use Rattle.std.specs.Prelude.{◌≡◌, map, length, IfOk, vec_items};
ghost use Rattle.network.specs.Served.{Stands};
ghost use Rattle.network.specs.declared.law.Answer.TheVariants.{Domain as Gives};
ghost use Rattle.sheet_catalog.specs.Sizes.{listed};
ghost use Rattle.runner.specs.Led.{Led, MadeAll, sizes_at};
ghost use Rattle.runner.specs.Ran.{Ran};
ghost use Rattle.runner.specs.Runs.{domains_asked, move_call};

use super::Running;
use crate::faults::RunFault;
use crate::outcomes::refusals;
use crate::reports::Report;
use catalog::Catalog;
use network::Change;
use sheet::Move;
use sheet_catalog::sizes::Sizes;
use std::alloc::{AllocError, Global};

impl<C: Catalog> Running<C> {
    // Makes the moves one after another, whether or not one is refused: what came of each.
    fn make_all(
        &mut self,
        heap: Global,
        moves: &[Move],
    ) -> Result<Vec<Result<Change, RunFault>>, AllocError>
        requires { Stands C.Catalog.meaning self.old.network }
        ensures { IfOk result (λ v. MadeAll C.Catalog.meaning self.old (map move_call moves.now) v.items self.new) }
    {
        let mut outcomes = Vec::with_capacity(heap, moves.len())?;
        for (before, m) in moves.iter().enumerate() {
            let outcome = self.make(*m, before);
            outcomes.push_reserved(outcome);
        }
        Ok(outcomes)
    }

    // The domain of each variable, of which there are n.
    #[tactic(auto, using(crate::proofs::Leading::asked_more, crate::proofs::Leading::none_asked))]
    fn domains(&mut self, heap: Global, n: usize) -> Result<Vec<u64>, AllocError>
        requires stands { Stands C.Catalog.meaning self.old.network }
        requires many { length (sizes_at self.old) ≡ n }
        ensures { IfOk result (λ v. Led C.Catalog.meaning self.old (domains_asked n) (map Gives v.items) self.new) }
    {
        let mut domains = Vec::with_capacity(heap, n)?;
        for variable in 0..n {
            domains.push_reserved(self.domain(variable));
        }
        Ok(domains)
    }
}

// Opens a network on the catalog at time 0, makes the moves, whether or not one is refused, and asks for each domain.
pub fn run_moves<C: Catalog + Drop>(
    heap: Global,
    catalog: C,
    sizes: &Sizes,
    moves: Vec<Move>,
) -> Result<Report, AllocError>
    ensures { IfOk result (λ report. Ran (C.Catalog.meaning catalog) (listed sizes.now) (vec_items moves) report) }
{
    let mut run = Running::new(catalog);
    run.open(sizes);
    let outcomes = run.make_all(heap, &moves)?;
    let refused = refusals(&outcomes);
    let domains = run.domains(heap, sizes.as_slice().len())?;
    Ok(Report {
        moves,
        outcomes,
        refused,
        domains,
    })
}
