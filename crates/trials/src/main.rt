// Trials: pseudo-random lists of calls, from fixed seeds, on catalogs of several makes. After each call what the network tells is compared with the domains from
// scratch and with those of another solver, and each justification is judged from its definition.
#![tactic(auto)]

mod makes;

use bits::Values;
use drawing::{Draws, Shape};
use judging::met::Met;
use judging::trouble::Trouble;
use makes::Make;
use random::Random;
use std::alloc::Global;
use std::io;

// Lists of calls, from one seed.
#[derive(Clone, Copy)]
struct Trials {
    name: &'static str,
    make: Make,
    seed: u64,
    lists: usize,
    shape: Shape,
}

const SMALL: Shape = Shape {
    variables: 5,
    values: 5,
    changes: 11,
};

const WIDE: Shape = Shape {
    variables: 6,
    values: 64,
    changes: 9,
};

const LONG: Shape = Shape {
    variables: 12,
    values: 14,
    changes: 19,
};

const ALL: [Trials; 6] = [
    Trials {
        name: "tables",
        make: Make::Tables,
        seed: 0x5eed_0001,
        lists: 3000,
        shape: SMALL,
    },
    Trials {
        name: "sums",
        make: Make::Sums,
        seed: 0x5eed_0002,
        lists: 3000,
        shape: SMALL,
    },
    Trials {
        name: "renumbered",
        make: Make::Renumbered,
        seed: 0x5eed_0003,
        lists: 1500,
        shape: SMALL,
    },
    Trials {
        name: "house",
        make: Make::House,
        seed: 0x5eed_0004,
        lists: 60,
        shape: WIDE,
    },
    Trials {
        name: "joined",
        make: Make::Joined,
        seed: 0x5eed_0005,
        lists: 40,
        shape: WIDE,
    },
    Trials {
        name: "ladder",
        make: Make::Ladder,
        seed: 0x5eed_0006,
        lists: 20,
        shape: LONG,
    },
];

// The list by which there was trouble.
#[derive(Clone, Copy)]
struct Failed {
    list: usize,
    trouble: Trouble,
}

impl Trials {
    // Makes the lists, as far as all agree. Gives the causes by which calls were refused.
    fn perform(self, heap: Global) -> Result<Met, Failed> {
        let mut random = Random::new(self.seed);
        let mut all = Met::NONE;
        for list in 0..self.lists {
            let draws = Draws {
                heap,
                random: &mut random,
                shape: self.shape,
            };
            match self.make.list(draws) {
                Ok(met) => all = all.joined(met),
                Err(trouble) => return Err(Failed { list, trouble }),
            }
        }
        Ok(all)
    }
}

// So many lists and calls so far, which causes of refusal were met, and whether all agreed.
#[derive(Clone, Copy)]
struct Total {
    lists: usize,
    calls: usize,
    met: Met,
    agreed: bool,
}

impl Total {
    // With these trials, of which it prints what came.
    fn with(self, rt: &HostRuntime, trials: Trials) -> io::Result<Total> {
        let Trials { name, lists, .. } = trials;
        let calls = trials.shape.all_calls();
        let outcome = trials.perform(rt.alloc());
        match outcome {
            Ok(_) => println!(rt; "{name}: {lists} lists of {calls} calls")?,
            Err(Failed { list, trouble }) => println!(rt; "{name}: list {list}: {trouble:?}")?,
        }
        Ok(Total {
            lists: self.lists.wrapping_add(lists),
            calls: self.calls.wrapping_add(lists.wrapping_mul(calls)),
            met: self.met.joined(outcome.unwrap_or(Met::NONE)),
            agreed: self.agreed && outcome.is_ok(),
        })
    }

    fn print(self, rt: &HostRuntime) -> io::Result<()> {
        let Total { lists, calls, .. } = self;
        let causes = Values(self.met.numbers);
        println!(rt; "refused by{causes}")?;
        if self.agreed {
            println!(rt; "{lists} lists, {calls} calls: all agreed")
        } else {
            println!(rt; "not all agreed")
        }
    }
}

fn main(rt: HostRuntime) -> io::Result<()> {
    let mut total = Total {
        lists: 0,
        calls: 0,
        met: Met::NONE,
        agreed: true,
    };
    for trials in ALL {
        total = total.with(&rt, trials)?;
    }
    total.print(&rt)
}
