// One list of calls: after each of them every party is to tell the same.
use catalog::Catalog;
use catalog::refusal::Refusal;
use catalog::supports::wiped_out;
use drawing::Draws;
use judging::book::{Book, Call, may_open};
use judging::expected;
use judging::judge::Judge;
use judging::met::Met;
use judging::reported::Reported;
use judging::trouble::Trouble;
use network::Change;
use parties::checks::{check_answer, check_done, check_refused, check_unasked};
use parties::first::First;
use parties::second::Second;
use std::alloc::Global;

// After an opening: the book that the trials keep, what stood after the last call by the computation from scratch and by the network, and the
// second solver.
#[derive(Drop)]
struct Parties<'a, C> {
    book: Book,
    domains: Vec<u64>,
    reported: Reported,
    second: Second<'a, C>,
}

// The justifications that do not rest on what is retracted are to be kept: all of them where nothing is.
fn check_kept<C: Catalog>(
    heap: Global,
    before: &Judge<'_, C>,
    after: &Reported,
    retracted: Option<usize>,
) -> Result<(), Trouble> {
    let resting = before.resting_on(heap, retracted)?;
    if before.kept(after, &resting) {
        Ok(())
    } else {
        Err(Trouble::Kept)
    }
}

// A network on a catalog, what the trial is drawn from, and the causes of refusal that were due.
#[derive(Drop)]
struct Trial<'a, C> {
    draws: Draws<'a>,
    catalog: &'a C,
    first: First<'a, C>,
    met: Met,
}

impl<'a, C: Catalog> Trial<'a, C> {
    // What was reported, to be judged by the book.
    fn judge<'b>(&self, book: &'b Book, reported: &'b Reported) -> Judge<'b, C>
    where
        'a: 'b,
    {
        Judge {
            catalog: self.catalog,
            book,
            reported,
        }
    }

    // Does the network tell the domains from scratch, with every value that is out justified?
    fn check_first(&self, parties: &Parties<'a, C>) -> Result<(), Trouble> {
        if !parties.reported.has_domains(&parties.domains) {
            return Err(Trouble::Domains);
        }
        if self.first.wiped_out() != wiped_out(&parties.domains, parties.domains.len()) {
            return Err(Trouble::WipedOut);
        }
        let judge = self.judge(&parties.book, &parties.reported);
        if !judge.justified() {
            return Err(Trouble::Justification);
        }
        if !judge.times_differ(self.draws.heap)? {
            return Err(Trouble::Times);
        }
        Ok(())
    }

    // Does the second solver tell the domains from scratch, with every value that is out justified?
    fn check_second(&self, parties: &Parties<'a, C>) -> Result<(), Trouble> {
        let reported = parties.second.report(self.draws.heap, &parties.book)?;
        if !reported.has_domains(&parties.domains) {
            return Err(Trouble::SecondDomains);
        }
        if !self.judge(&parties.book, &reported).justified() {
            return Err(Trouble::SecondJustification);
        }
        Ok(())
    }

    // Do both solvers tell the domains from scratch, with every value that is out justified?
    fn check(&self, parties: &Parties<'a, C>) -> Result<(), Trouble> {
        self.check_first(parties)?;
        self.check_second(parties)
    }

    // Opens the network, and the second solver with it.
    fn open(&mut self) -> Result<Parties<'a, C>, Trouble> {
        let heap = self.draws.heap;
        let sizes = self.draws.sizes()?;
        let time = self.draws.time();
        self.first.open(&sizes, time)?;
        let second = Second::open(heap, self.catalog, &sizes)?;
        let book = Book::open(heap, sizes, time)?;
        let parties = Parties {
            domains: expected::domains(heap, self.catalog, &book)?,
            reported: self.first.report(heap, &book)?,
            book,
            second,
        };
        self.check(&parties)?;
        Ok(parties)
    }

    // What the network reported after a call replaces what it reported before, of which nothing may be lost but what rests on what was retracted.
    fn replace_reported(
        &self,
        parties: &mut Parties<'a, C>,
        retracted: Option<usize>,
    ) -> Result<(), Trouble> {
        let heap = self.draws.heap;
        let reported = self.first.report(heap, &parties.book)?;
        let before = self.judge(&parties.book, &parties.reported);
        check_kept(heap, &before, &reported, retracted)?;
        parties.reported = reported;
        Ok(())
    }

    // Makes one call of every party, and compares. The second solver has no buffers and no clock: it is not called where these alone turn the call down.
    fn perform(&mut self, parties: &mut Parties<'a, C>, call: Call) -> Result<(), Trouble> {
        let heap = self.draws.heap;
        let lent = self.draws.lent();
        let answer = self.first.make(call, lent)?;
        let of_all = parties.book.may(self.catalog, call);
        let of_lent = parties.book.may_now(
            lent.waiting,
            lent.returning,
            answer == Err(Refusal::ClockSpent),
        );
        if of_all.is_err() || of_lent.is_ok() {
            check_done(parties.second.make(heap, call), of_all.err())?;
        }
        let due = of_all.and(of_lent);
        self.met = self.met.with(due.err());
        let retracted = match call {
            Call::Retract(p) if due.is_ok() => Some(p),
            _ => None,
        };
        self.replace_reported(parties, retracted)?;
        if let Ok(change) = answer {
            parties.book.note(call, change.values);
        }
        let domains = expected::domains(heap, self.catalog, &parties.book)?;
        let change = Change {
            values: expected::differing(&parties.domains, &domains),
            wiped: wiped_out(&domains, domains.len()),
        };
        check_answer(answer, due.map(|()| change))?;
        parties.domains = domains;
        self.check(parties)
    }

    // Tries an opening that is refused, and forgets nothing.
    fn open_in_vain(&mut self, parties: &mut Parties<'a, C>) -> Result<(), Trouble> {
        let sizes = self.draws.bad_sizes()?;
        let time = self.draws.time();
        let due = may_open(&sizes);
        self.met = self.met.with(due.err());
        check_refused(self.first.open(&sizes, time), due)?;
        self.replace_reported(parties, None)?;
        self.check_first(parties)
    }

    // Asks about a value, which may not be there.
    fn ask(&mut self, book: &Book) -> Result<(), Trouble> {
        let value = self.draws.value(book);
        let [domain, shown, why] = book.unasked(value);
        self.met = self.met.with(domain).with(shown).with(why);
        check_unasked(self.first.unasked(value), [domain, shown, why])
    }

    // Opens the network and makes calls, with a question after each, and before one of them an opening that is refused.
    fn calls(&mut self) -> Result<(), Trouble> {
        let mut parties = self.open()?;
        let changes = self.draws.shape.changes;
        let vain = self.draws.random.below(changes);
        for turn in 0..changes {
            if turn == vain {
                self.open_in_vain(&mut parties)?;
            }
            let call = self.draws.call(&parties.book, self.catalog.count());
            self.perform(&mut parties, call)?;
            self.ask(&parties.book)?;
        }
        Ok(())
    }
}

// Makes a network, and twice opens it and makes calls. Gives the causes by which calls were refused.
pub fn list<C: Catalog>(draws: Draws<'_>, catalog: &C) -> Result<Met, Trouble> {
    let first = First::new(draws.heap, catalog)?;
    let mut trial = Trial {
        draws,
        catalog,
        first,
        met: Met::NONE,
    };
    trial.calls()?;
    trial.calls()?;
    Ok(trial.met)
}
