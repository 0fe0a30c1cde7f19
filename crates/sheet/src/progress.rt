// How far the check of a sheet has come, and what one record more does to it.
ghost use Rattle.std.specs.Prelude.{◌≡◌, ◌+◌, ◌<◌, ◌≤◌, true, length};
ghost use Rattle.sheet_format.specs.Value.{size_at};
ghost use Rattle.sheet_format.specs.Verdict.{Tally, complete, constraints_due, nothing_yet, summary, heading_step, variable_step, sum_step, table_step, move_step, end_step, constraint_step, house_good, step};
ghost use Rattle.sheet.specs.Outcome.{shown_by};
ghost use Rattle.sheet.specs.Steps.{is_end, kept, Judged, Fits, next_step, Became, Flows, Turn};

use crate::bodies::{ends_good, house_used, rows_good};
use crate::formula::Formula;
use crate::reader::Record;
use arrayvec::ArrayVec;
use sheet_format::{Cause, Summary, Variable, word};
use std::marker::Model;
use std::ops::ControlFlow;

// What the records so far have said: how many variables the heading gave (none before it), those that came, how many constraints and moves,
// and the place after the last record that was no move. `n` is a number and no Option, as in the definition's tally, of which Progress is a model:
// a heading has at least one variable, so 0 is no heading's number, and the tests compare with it as it stands.
#[derive(Drop)]
pub struct Progress {
    n: usize,
    variables: ArrayVec<Variable, 32>,
    constraints: u32,
    moves: u32,
    reached: u32,
}

// What a record that passes every test adds: the heading's number of variables, a variable, a constraint, a move, or nothing more.
#[derive(Clone, Copy)]
pub(crate) enum Next {
    Heading(u16),
    Variable(Variable),
    Constraint,
    Move,
    End,
}

impl Next {
    // no record comes after it
    pub(crate) fn is_end(self) -> bool
        ensures { result ≡ is_end self }
    {
        matches!(self, Next::End)
    }

    // the bytes to be kept for the end after it
    pub(crate) fn kept(self) -> usize
        ensures { result ≡ kept self }
    {
        if self.is_end() { 0 } else { 4 }
    }
}

impl Model for Progress {
    ghost Value = { Tally };

    ghost view = { λ p. record { n = p.n; variables = p.variables.items; constraints = p.constraints; moves = p.moves; reached = p.reached } };

    ghost invariant = { λ p. (p.n ≤ 32) × (length p.variables.items ≤ p.n) × (p.constraints ≤ 96) };
}

impl Progress {
    // Nothing has been read yet.
    pub(crate) fn new() -> Progress
        ensures { result ≡ nothing_yet }
    {
        Progress {
            n: 0,
            variables: ArrayVec::new(),
            constraints: 0,
            moves: 0,
            reached: 0,
        }
    }

    // what a sheet that ends here holds
    fn summary(&self) -> Summary
        ensures { result ≡ summary self.now }
    {
        let variables = self.n as u32;
        Summary {
            variables,
            constraints: self.constraints,
            moves: self.moves,
            constraints_at: 8 + 8 * variables,
            moves_at: self.reached,
        }
    }

    // the heading and all variables are there
    fn is_complete(&self) -> bool
        ensures { result ≡ complete self.now }
    {
        self.n > 0 && self.variables.len() >= self.n
    }

    // constraints may come: all variables are there, and no move has come
    fn constraints_due(&self) -> bool
        ensures { result ≡ constraints_due self.now }
    {
        self.is_complete() && self.moves == 0
    }

    // how many values a variable that is there has
    fn size_at(&self, i: usize) -> u16
        requires { i < length self.now.variables }
        ensures { result ≡ size_at self.now.variables i }
    {
        self.variables[i].size
    }

    // the house number is below n and new
    #[tactic(auto, using(crate::proofs::Used::used_any))]
    fn house_good(&self, house: u16) -> bool
        ensures { result ≡ house_good self.now house }
    {
        (house as usize) < self.n && !house_used(&self.variables, house)
    }

    // a heading: the start word 1, and a number of variables from 1 to 32
    fn heading(&self, body: &[u8]) -> Result<Next, Cause>
        ensures { Judged self.now (heading_step self.now body.now) result }
    {
        if self.n != 0 {
            return Err(Cause::OutOfTurn);
        }
        if body.len() != 4 {
            return Err(Cause::WrongLength);
        }
        let n = word(body, 2);
        if word(body, 0) != 1 || n < 1 || n > 32 {
            return Err(Cause::BadHeading);
        }
        Ok(Next::Heading(n))
    }

    // a variable: 1 to 64 values, and a house number that is below n and new
    fn variable(&self, body: &[u8]) -> Result<Next, Cause>
        ensures { Judged self.now (variable_step self.now body.now) result }
    {
        if self.variables.len() >= self.n {
            return Err(Cause::OutOfTurn);
        }
        if body.len() != 4 {
            return Err(Cause::WrongLength);
        }
        let size = word(body, 0);
        let house = word(body, 2);
        if size < 1 || size > 64 {
            return Err(Cause::BadSize);
        }
        if !self.house_good(house) {
            return Err(Cause::BadHouse);
        }
        Ok(Next::Variable(Variable { size, house }))
    }

    // a constraint may come here, and is at most the 96th
    fn constraint_turn(&self) -> Result<(), Cause>
        ensures { Turn self.now result }
    {
        if !self.constraints_due() {
            return Err(Cause::OutOfTurn);
        }
        if self.constraints >= 96 {
            return Err(Cause::TooManyConstraints);
        }
        Ok(())
    }

    // a sum constraint
    fn sum(&self, body: &[u8]) -> Result<Next, Cause>
        ensures { Judged self.now (λ after. constraint_step self.now (sum_step self.now body.now after)) result }
    {
        self.constraint_turn()?;
        if body.len() != 14 {
            return Err(Cause::WrongLength);
        }
        if !ends_good(self.n, body[0], body[1]) {
            return Err(Cause::BadEnds);
        }
        if !Formula::of_body(body).is_good() {
            return Err(Cause::BadSum);
        }
        Ok(Next::Constraint)
    }

    // a table constraint with both its ends
    #[tactic(auto, using(crate::proofs::Chunks::rows_all))]
    fn table(&self, left: u8, right: u8, rows: &[u8]) -> Result<Next, Cause>
        ensures { Judged self.now (λ after. constraint_step self.now (table_step self.now left right rows.now after)) result }
    {
        self.constraint_turn()?;
        if !ends_good(self.n, left, right) {
            return Err(Cause::BadEnds);
        }
        let count = self.size_at(left as usize) as usize;
        if rows.len() != 8 * count {
            return Err(Cause::WrongLength);
        }
        if !rows_good(rows, self.size_at(right as usize)) {
            return Err(Cause::BadRow);
        }
        Ok(Next::Constraint)
    }

    // a move: any index
    fn a_move(&self, body: &[u8]) -> Result<Next, Cause>
        ensures { Judged self.now (λ after. move_step self.now body.now) result }
    {
        if !self.is_complete() {
            return Err(Cause::OutOfTurn);
        }
        if body.len() != 2 {
            return Err(Cause::WrongLength);
        }
        Ok(Next::Move)
    }

    // the end record: nothing more is due
    fn ending(&self, body: &[u8]) -> Result<Next, Cause>
        ensures { Judged self.now (λ after. end_step self.now body.now) result }
    {
        if !self.is_complete() {
            return Err(Cause::OutOfTurn);
        }
        if body.len() != 0 {
            return Err(Cause::WrongLength);
        }
        Ok(Next::End)
    }

    // What one record more would add, wherever it ends, or why it is refused.
    pub(crate) fn judge(&self, taken: Record<'_>) -> Result<Next, Cause>
        ensures { Judged self.now (step self.now (shown_by taken.entry)) result }
    {
        match taken {
            Record::Heading(body) => self.heading(body),
            Record::Variable(body) => self.variable(body),
            Record::Sum(body) => self.sum(body),
            Record::Table { left, right, rows } => self.table(left, right, rows.bytes),
            Record::ShortTable(_) => {
                self.constraint_turn()?;
                Err(Cause::WrongLength)
            }
            Record::Add(body) => self.a_move(body),
            Record::Retract(body) => self.a_move(body),
            Record::End(body) => self.ending(body),
        }
    }

    // Adds what a record that ends before the byte `after` was judged to add. The end record adds nothing.
    pub(crate) fn take(&mut self, next: Next, after: u32)
        requires few { self.old.moves < 65536 }
        requires fits { Fits self.old next }
        ensures { Became self.old (next_step self.old after next) self.new }
    {
        match next {
            Next::Heading(n) => {
                self.n = n as usize;
                self.reached = after;
            }
            Next::Variable(variable) => {
                self.variables.push(variable);
                self.reached = after;
            }
            Next::Constraint => {
                self.constraints += 1;
                self.reached = after;
            }
            Next::Move => self.moves += 1,
            Next::End => {}
        }
    }

    // One record more, which ends before the byte `after` of the sheet. The end record gives what the sheet holds.
    pub(crate) fn admit(
        &mut self,
        taken: Record<'_>,
        after: u32,
    ) -> Result<ControlFlow<Summary>, Cause>
        requires { self.old.moves < 65536 }
        ensures { Flows self.old (step self.old (shown_by taken.entry) after) result self.new }
    {
        let next = self.judge(taken)?;
        if let Next::End = next {
            return Ok(ControlFlow::Break(self.summary()));
        }
        self.take(next, after);
        Ok(ControlFlow::Continue(()))
    }
}
