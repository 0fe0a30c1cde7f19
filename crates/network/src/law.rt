// What the calls on a network answer, and the law of every list of calls.
ghost use Rattle.std.specs.Prelude.{Some};
ghost use Rattle.network.specs.Text.{change_text};
ghost use Rattle.network.specs.Theorems.{HistoriesAreSteps, HistoriesJoin, HistoriesPart, HistoriesRight, StepsJoin, StepsPart, StepsRight};

use catalog::refusal::Refusal;
use domains::Justification;
use std::fmt;

// What an accepted add or retract did: how many values it took away or brought back, and the wiped-out variable after it.
#[derive(Clone, Copy, PartialEq, Eq, Debug)]
pub struct Change {
    pub values: u32,
    pub wiped: Option<usize>,
}

// How many values, and the wiped-out variable or `-`.
impl fmt::Display for Change {
    ghost output = { λ c. Some (change_text c) };

    fn fmt<W: fmt::Write>(&self, f: &mut fmt::Formatter<W>) -> fmt::Result {
        let values = self.values;
        match self.wiped {
            Some(variable) => write!(f, "{values} {variable}"),
            None => write!(f, "{values} -"),
        }
    }
}

// What a call answers.
#[derive(Clone, Copy, PartialEq, Eq, Debug)]
pub enum Answer {
    Opened,
    Changed(Change),
    // the domain of a variable: bit x for the value x
    Domain(u64),
    // is the value shown
    Shown(bool),
    // why a value is out, or nothing where it is shown
    Justified(Option<Justification>),
    // the wiped-out variable, or none
    Wiped(Option<usize>),
    Refused(Refusal),
}

// One history after another is a history.
pub fn histories_join()
    ensures { HistoriesJoin }
{}

// A history can be parted after any of its calls.
pub fn histories_part()
    ensures { HistoriesPart }
{}

// Where everything stands rightly before a history, it does after each of its calls.
pub fn histories_right()
    ensures { HistoriesRight }
{}

// A history is made of steps, whatever buffers were lent.
pub fn histories_are_steps()
    ensures { HistoriesAreSteps }
{}

// Steps join, also where other buffers are lent from some call on.
pub fn steps_join()
    ensures { StepsJoin }
{}

// Steps can be parted after any of their calls.
pub fn steps_part()
    ensures { StepsPart }
{}

// Where everything stands rightly before steps, it does after each of them, whatever buffers were lent.
pub fn steps_right()
    ensures { StepsRight }
{}
