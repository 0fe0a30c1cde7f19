// What a move does.
ghost use Rattle.std.specs.Prelude.{Some};
ghost use Rattle.sheet.specs.Text.{move_text};

use std::fmt;

// A move adds or retracts the constraint at an index.
#[derive(Clone, Copy, PartialEq, Eq, Debug)]
pub enum Move {
    Add(u16),
    Retract(u16),
}

// `in` or `out`, and the index.
impl fmt::Display for Move {
    ghost output = { λ m. Some (move_text m) };

    fn fmt<W: fmt::Write>(&self, f: &mut fmt::Formatter<W>) -> fmt::Result {
        match self {
            Move::Add(index) => write!(f, "in {index}"),
            Move::Retract(index) => write!(f, "out {index}"),
        }
    }
}
