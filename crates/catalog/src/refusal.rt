// Why a call is refused.
ghost use Rattle.std.specs.Prelude.{◌≡◌, Some};
ghost use Rattle.catalog.specs.Number.{number_of};
ghost use Rattle.catalog.specs.Text.{refusal_text};

use std::fmt;

#[derive(Clone, Copy, PartialEq, Eq, Debug)]
pub enum Refusal {
    // no variable, or more than 32
    VariableCount = 1,
    // a variable with no value, or with more than 64
    DomainSize = 2,
    // an index that is not below the catalog's count
    NoSuchConstraint = 3,
    // an end that is not one of the variables
    EndOutside = 4,
    // to be added, and already in
    AlreadyIn = 5,
    // to be retracted, and not in
    NotIn = 6,
    // a lent buffer that is too short
    ShortBuffer = 7,
    // a clock that is too far on
    ClockSpent = 8,
    // a question about a variable or a value that is not there
    NoSuchValue = 9,
    // a result list with fewer entries than there are variables
    ShortResult = 10,
}

impl Refusal {
    // The number by which a refusal is known outside.
    pub fn number(self) -> u8
        ensures { result ≡ number_of self }
    {
        self as u8
    }
}

impl fmt::Display for Refusal {
    ghost output = { λ e. Some (refusal_text e) };

    fn fmt<W: fmt::Write>(&self, f: &mut fmt::Formatter<W>) -> fmt::Result {
        let number = self.number();
        write!(f, "no {number}")
    }
}
