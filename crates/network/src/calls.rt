// Any list of calls, performed on a network.
ghost use Rattle.std.specs.Prelude.{◌≡◌, length, min, take};
ghost use Rattle.domains.specs.Stands.{Past};
ghost use Rattle.network.specs.Requests.{call_of, calls_of, cut};
ghost use Rattle.network.specs.Served.{ServesLent, Stands};
ghost use Rattle.network.specs.Calls.{adds, retracts};
ghost use Rattle.network.specs.History.{History, Run};
ghost use Rattle.network.specs.Model.{moment_of};
ghost use Rattle.network.specs.Performs.{answer_by, buffers, lengths_of};
ghost use Rattle.network.specs.declared.law.Answer.TheVariants.{Changed};

use crate::law::{Answer, Change};
use crate::network::Network;
use catalog::Catalog;
use catalog::refusal::Refusal;
use domains::Returning;

// How many entries of the two buffers a call is lent: for constraints that wait, and for values that come back. Of a shorter buffer it gets all.
#[derive(Clone, Copy, PartialEq, Eq, Debug)]
pub struct Lent {
    pub waiting: usize,
    pub returning: usize,
}

impl Lent {
    // As many entries as buffers of these lengths have.
    fn cut(self, waiting: usize, returning: usize) -> Lent
        ensures waiting { result.waiting ≡ min self.waiting waiting }
        ensures returning { result.returning ≡ min self.returning returning }
    {
        Lent {
            waiting: self.waiting.min(waiting),
            returning: self.returning.min(returning),
        }
    }
}

// A call on a network.
#[derive(Clone, Copy)]
pub enum Call<'a> {
    // the sizes, and the first time
    Open { sizes: &'a [usize], time: u32 },
    Add { constraint: usize, lent: Lent },
    Retract { constraint: usize, lent: Lent },
    // a variable
    Domain(usize),
    Shown { variable: usize, value: usize },
    Justification { variable: usize, value: usize },
    WipedOut,
}

impl<C: Catalog> Network<C> {
    // Adds the constraint with so much of the buffers.
    fn add_lent(
        &mut self,
        constraint: usize,
        lent: Lent,
        waiting: &mut [u8],
        returning: &mut [Returning],
    ) -> Result<Change, Refusal>
        ensures catalog { self.new.catalog ≡ self.old.catalog }
        ensures performs { ServesLent C.Catalog.meaning self.old (buffers waiting.old returning.old) (adds constraint (cut (lengths_of waiting.old returning.old) lent)) (answer_by Changed result) self.new (buffers waiting.new returning.new) }
        ensures past { Past 128 waiting.old waiting.new }
        ensures past_returning { returning.new ≡ returning.old }
    {
        let part = lent.cut(waiting.len(), returning.len());
        self.add(
            constraint,
            &mut waiting[..part.waiting],
            &mut returning[..part.returning],
        )
    }

    // Retracts the constraint with so much of the buffers.
    fn retract_lent(
        &mut self,
        constraint: usize,
        lent: Lent,
        waiting: &mut [u8],
        returning: &mut [Returning],
    ) -> Result<Change, Refusal>
        ensures catalog { self.new.catalog ≡ self.old.catalog }
        ensures performs { ServesLent C.Catalog.meaning self.old (buffers waiting.old returning.old) (retracts constraint (cut (lengths_of waiting.old returning.old) lent)) (answer_by Changed result) self.new (buffers waiting.new returning.new) }
        ensures past { Past 128 waiting.old waiting.new }
        ensures past_returning { Past 2048 returning.old returning.new }
    {
        let lent = lent.cut(waiting.len(), returning.len());
        self.retract(
            constraint,
            &mut waiting[..lent.waiting],
            &mut returning[..lent.returning],
        )
    }

    // One call, with its answer.
    fn answer(&mut self, call: Call<'_>, waiting: &mut [u8], returning: &mut [Returning]) -> Answer
        ensures catalog { self.new.catalog ≡ self.old.catalog }
        ensures performs { ServesLent C.Catalog.meaning self.old (buffers waiting.old returning.old) (call_of (lengths_of waiting.old returning.old) call.entry) result self.new (buffers waiting.new returning.new) }
        ensures past { Past 128 waiting.old waiting.new }
        ensures past_returning { Past 2048 returning.old returning.new }
    {
        match call {
            Call::Open { sizes, time } => self
                .open(sizes, time)
                .map_or_else(Answer::Refused, |()| Answer::Opened),
            Call::Add { constraint, lent } => self
                .add_lent(constraint, lent, waiting, returning)
                .map_or_else(Answer::Refused, Answer::Changed),
            Call::Retract { constraint, lent } => self
                .retract_lent(constraint, lent, waiting, returning)
                .map_or_else(Answer::Refused, Answer::Changed),
            Call::Domain(variable) => self
                .domain(variable)
                .map_or_else(Answer::Refused, Answer::Domain),
            Call::Shown { variable, value } => self
                .is_shown(variable, value)
                .map_or_else(Answer::Refused, Answer::Shown),
            Call::Justification { variable, value } => self
                .justification(variable, value)
                .map_or_else(Answer::Refused, Answer::Justified),
            Call::WipedOut => Answer::Wiped(self.wiped_out()),
        }
    }

    // Performs the calls, one after another, as many as there are entries for their answers. On a network that is linked to its catalog the answers are those of the
    // law of networks, whatever the calls are, in any order and accepted or not.
    pub fn perform(
        &mut self,
        calls: &[Call<'_>],
        answers: &mut [Answer],
        waiting: &mut [u8],
        returning: &mut [Returning],
    )
        ensures catalog { self.new.catalog ≡ self.old.catalog }
        ensures stands { Stands C.Catalog.meaning self.old → Stands C.Catalog.meaning self.new }
        ensures law { Stands C.Catalog.meaning self.old → History (C.Catalog.meaning self.old.catalog) (moment_of self.old.state) (buffers waiting.old returning.old) (calls_of (lengths_of waiting.old returning.old) (take (length answers.old) calls.now)) (take (length calls.now) answers.new) (moment_of self.new.state) (buffers waiting.new returning.new) }
        ensures answers { Past (length calls.now) answers.old answers.new }
        ensures past { Past 128 waiting.old waiting.new }
        ensures past_returning { Past 2048 returning.old returning.new }
    {
        // The place is that of the call and of its answer: after `iter_mut().zip(..)` nothing is known of what was written.
        let there = calls.len().min(answers.len());
        for (i, call) in calls[..there].iter().enumerate() {
            answers[i] = self.answer(*call, waiting, returning);
        }
    }
}

// Makes a network on the catalog and performs the calls on it, one after another, as many as there are entries for their answers. Whatever the calls
// are, in any order and accepted or not, the answers are those of the law of networks, and the network comes back as they left it.
pub fn perform<C: Catalog>(
    catalog: C,
    calls: &[Call<'_>],
    answers: &mut [Answer],
    waiting: &mut [u8],
    returning: &mut [Returning],
) -> Network<C>
    ensures catalog { result.catalog ≡ catalog }
    ensures stands { Stands C.Catalog.meaning result }
    ensures law { Run (C.Catalog.meaning catalog) (buffers waiting.old returning.old) (calls_of (lengths_of waiting.old returning.old) (take (length answers.old) calls.now)) (take (length calls.now) answers.new) (moment_of result.state) (buffers waiting.new returning.new) }
    ensures answers { Past (length calls.now) answers.old answers.new }
    ensures past { Past 128 waiting.old waiting.new }
    ensures past_returning { Past 2048 returning.old returning.new }
{
    let mut network = Network::new(catalog);
    network.perform(calls, answers, waiting, returning);
    network
}
