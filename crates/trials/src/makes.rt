// Lists of calls on catalogs of several makes.
use catalog::house::HouseCatalog;
use catalog::joined::Joined;
use catalog::renumbered::Renumbered;
use drawing::{Draws, Shape};
use judging::met::Met;
use judging::trouble::Trouble;
use random::density::Density;
use random::made;
use samples::ladder::Ladder;
use trial::list;

// Of what make the catalog of a list is.
#[derive(Clone, Copy)]
pub enum Make {
    Tables,
    Sums,
    Renumbered,
    House,
    Joined,
    Ladder,
}

impl Make {
    // A list of calls on a catalog of that make. Gives the causes by which calls were refused.
    pub fn list(self, draws: Draws<'_>) -> Result<Met, Trouble> {
        match self {
            Make::Tables => tables(draws),
            Make::Sums => sums(draws),
            Make::Renumbered => renumbered(draws),
            Make::House => house(draws),
            Make::Joined => joined(draws),
            Make::Ladder => ladder(draws),
        }
    }
}

fn tables(draws: Draws<'_>) -> Result<Met, Trouble> {
    let shape = draws.shape.narrowed(draws.random);
    let count = draws.random.between(1, 12);
    let density = Density::from(draws.random.below(3));
    let catalog = made::tables(draws.random, count, shape.variables, density);
    list(Draws { shape, ..draws }, &catalog)
}

fn sums(draws: Draws<'_>) -> Result<Met, Trouble> {
    let shape = draws.shape.narrowed(draws.random);
    let count = draws.random.between(1, 12);
    let catalog = made::sums(draws.random, count, shape.variables, shape.values);
    list(Draws { shape, ..draws }, &catalog)
}

fn renumbered(draws: Draws<'_>) -> Result<Met, Trouble> {
    let Shape { variables, .. } = draws.shape;
    let catalog = made::tables(draws.random, 10, variables, Density::Half);
    let numbering = made::numbering(draws.random, variables);
    list(draws, &Renumbered { catalog, numbering })
}

// Renumbered sums, then tables, then the house constraints.
fn joined(draws: Draws<'_>) -> Result<Met, Trouble> {
    let Shape {
        variables,
        values,
        ..
    } = draws.shape;
    let catalog = made::sums(draws.random, 4, variables, values);
    let numbering = made::numbering(draws.random, variables);
    let second = Joined {
        first: made::tables(draws.random, 4, variables, Density::Half),
        second: HouseCatalog,
    };
    let first = Renumbered { catalog, numbering };
    list(draws, &Joined { first, second })
}

// A ladder that with the house constraints passes 128.
fn ladder(draws: Draws<'_>) -> Result<Met, Trouble> {
    let combined = Joined {
        first: Ladder { count: 126 },
        second: HouseCatalog,
    };
    list(draws, &combined)
}

fn house(draws: Draws<'_>) -> Result<Met, Trouble> {
    list(draws, &HouseCatalog)
}
