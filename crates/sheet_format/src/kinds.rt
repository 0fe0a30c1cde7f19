// The kinds of the records.
ghost use Rattle.std.specs.Prelude.{◌≡◌};
ghost use Rattle.sheet_format.specs.Kinds.{Decodes, kind_number};

use crate::faults::RecordCause;

// What a record of the sheet is.
#[derive(Clone, Copy, PartialEq, Eq, Debug)]
pub enum Kind {
    Heading,
    Variable,
    Sum,
    Table,
    Add,
    Retract,
    End,
}

impl Kind {
    // The number that stands for the kind.
    pub fn number(self) -> u16
        ensures { result ≡ kind_number self }
    {
        match self {
            Kind::Heading => 1,
            Kind::Variable => 2,
            Kind::Sum => 3,
            Kind::Table => 4,
            Kind::Add => 5,
            Kind::Retract => 6,
            Kind::End => 7,
        }
    }
}

impl TryFrom<u16> for Kind {
    type Error = RecordCause;

    ghost try_from_gives = { Decodes };

    fn try_from(number: u16) -> Result<Self, RecordCause> {
        match number {
            1 => Ok(Kind::Heading),
            2 => Ok(Kind::Variable),
            3 => Ok(Kind::Sum),
            4 => Ok(Kind::Table),
            5 => Ok(Kind::Add),
            6 => Ok(Kind::Retract),
            7 => Ok(Kind::End),
            _ => Err(RecordCause::UnknownKind),
        }
    }
}
