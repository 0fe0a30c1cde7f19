// What comes of a sheet's moves on both solvers.
use catalog::Catalog;
use catalog::refusal::Refusal;
use judging::book::Call;
use judging::trouble::Trouble;
use network::Change;
use parties::both::Both;
use runner::domain_line;
use sheet::Move;
use std::alloc::Global;
use std::io;

// The answer to each move, and the domains after the last one.
#[derive(Drop)]
pub struct Outcome {
    answers: Vec<Result<Change, Refusal>>,
    domains: [u64; 32],
}

fn call_of(m: Move) -> Call {
    match m {
        Move::Add(p) => Call::Add(p as usize),
        Move::Retract(p) => Call::Retract(p as usize),
    }
}

// Makes the moves on both solvers, which are to agree.
pub fn made<C: Catalog>(
    heap: Global,
    catalog: &C,
    sizes: &[usize],
    moves: &[Move],
) -> Result<Outcome, Trouble> {
    let mut both = Both::open(heap, catalog, sizes)?;
    let mut answers = Vec::new(heap);
    for m in moves {
        answers.push(both.make(heap, call_of(*m))?)?;
    }
    let domains = both.domains()?;
    Ok(Outcome { answers, domains })
}

impl Outcome {
    fn print_moves(&self, rt: &HostRuntime, moves: &[Move]) -> io::Result<()> {
        for (m, answer) in moves.iter().zip(&self.answers) {
            match answer {
                Ok(change) => println!(rt; "{m} {change}")?,
                Err(refusal) => println!(rt; "{m} {refusal}")?,
            }
        }
        Ok(())
    }

    fn print_domains(&self, rt: &HostRuntime, variables: usize) -> io::Result<()> {
        for (variable, domain) in self.domains.iter().enumerate().take(variables) {
            rt.println(domain_line(rt.alloc(), variable, *domain)?)?;
        }
        Ok(())
    }

    // How much was compared: the domain of each variable at the start and after each move, so with three variables 18 of five moves and 36 of eleven.
    fn print_count(&self, rt: &HostRuntime, variables: usize) -> io::Result<()> {
        let count = self.answers.len();
        let refused = self.answers.iter().filter(|answer| answer.is_err()).count();
        let compared = count.wrapping_add(1).wrapping_mul(variables);
        println!(rt; "{count} moves, {refused} refused, {compared} domains: agreed")
    }

    // Prints what came of each move, then the domains of so many variables, and how much was compared.
    pub fn print(&self, rt: &HostRuntime, moves: &[Move], variables: usize) -> io::Result<()> {
        self.print_moves(rt, moves)?;
        self.print_domains(rt, variables)?;
        self.print_count(rt, variables)
    }
}
