// What the network tells.
use crate::borrowed::Borrowed;
use catalog::Catalog;
use catalog::refusal::Refusal;
use domains::Returning;
use judging::book::{Book, Call, Value};
use judging::reported::{Account, Reported};
use judging::trouble::Trouble;
use network::{Answer, Change, Lent, Network};
use std::alloc::{AllocError, Global};

// A network, and the buffers of which it is lent a part at each change: two literals, in lists. With arrays here the borrow checker has no rule yet for the call of
// `First::report` after an opening.
#[derive(Drop)]
pub struct First<'a, C> {
    network: Network<Borrowed<'a, C>>,
    waiting: Vec<u8>,
    returning: Vec<Returning>,
}

impl<'a, C: Catalog> First<'a, C> {
    // The buffers have more entries than any change needs.
    pub fn new(heap: Global, catalog: &'a C) -> Result<First<'a, C>, AllocError> {
        let waiting = vec![in heap; 0; 130]?;
        let returning = vec![in heap; Returning::default(); 2050]?;
        Ok(First {
            network: Network::new(Borrowed { catalog }),
            waiting,
            returning,
        })
    }

    // The answer to one call.
    fn answer(&mut self, call: network::Call<'_>) -> Answer {
        let First {
            network,
            waiting,
            returning,
        } = self;
        let mut answers = [Answer::Opened];
        network.perform(&[call], &mut answers, waiting, returning);
        let [answer] = answers;
        answer
    }

    pub fn open(&mut self, sizes: &[usize], time: u32) -> Result<(), Refusal> {
        match self.answer(network::Call::Open { sizes, time }) {
            Answer::Refused(cause) => Err(cause),
            _ => Ok(()),
        }
    }

    // Makes a call with so much of the buffers.
    pub fn make(&mut self, call: Call, lent: Lent) -> Result<Result<Change, Refusal>, Trouble> {
        let call = match call {
            Call::Add(constraint) => network::Call::Add { constraint, lent },
            Call::Retract(constraint) => network::Call::Retract { constraint, lent },
        };
        match self.answer(call) {
            Answer::Changed(change) => Ok(Ok(change)),
            Answer::Refused(cause) => Ok(Err(cause)),
            _ => Err(Trouble::Answer),
        }
    }

    // Why the questions for the domain of a variable, whether its value is shown and why it is out are refused.
    pub fn unasked(&self, value: Value) -> [Option<Refusal>; 3] {
        let Value { variable, value } = value;
        [
            self.network.domain(variable).err(),
            self.network.is_shown(variable, value).err(),
            self.network.justification(variable, value).err(),
        ]
    }

    // The domain of a variable; nothing past the last one.
    pub fn domain(&self, variable: usize) -> u64 {
        self.network.domain(variable).unwrap_or(0)
    }

    pub fn wiped_out(&self) -> Option<usize> {
        self.network.wiped_out()
    }

    // Asks about a value, and notes its account.
    fn ask_value(&self, reported: &mut Reported, value: Value) -> Result<(), Trouble> {
        let Value { variable, value: x } = value;
        if self.network.is_shown(variable, x)? != reported.shows(value) {
            return Err(Trouble::Shown);
        }
        if let Some(why) = self.network.justification(variable, x)? {
            let account = Account {
                constraint: Some(why.constraint),
                time: u64::from(why.time),
            };
            reported.set_account(value, account);
        }
        Ok(())
    }

    // Asks everything that can be asked. A variable is its number, by which the network is asked.
    pub fn report(&self, heap: Global, book: &Book) -> Result<Reported, Trouble> {
        let mut reported = Reported::new(heap);
        for variable in book.variables() {
            reported.add_domain(self.network.domain(variable)?)?;
        }
        for value in &book.values {
            self.ask_value(&mut reported, *value)?;
        }
        Ok(reported)
    }
}
