// What can be wrong with a sheet, and at which byte.
ghost use Rattle.std.specs.Prelude.{◌≡◌, Some};
ghost use Rattle.sheet_format.specs.Faults.{cause_number, record_number, fault_number, fault_byte, fault_records, counted_result};
ghost use Rattle.sheet_format.specs.Lines.{fault_line};
ghost use Rattle.sheet_format.specs.declared.faults.SheetFault.TheVariants.{Record, Format};

use std::fmt;

// Why no record can be taken off the bytes that are left.
#[derive(Clone, Copy, PartialEq, Eq, Debug)]
pub enum RecordCause {
    // no byte is left
    Missing = 21,
    // one to three bytes are left, or the length is under 4 or past the bytes left
    BadLength = 22,
    // the kind is not 1 to 7
    UnknownKind = 23,
}

// Why a sheet of whole records is refused.
#[derive(Clone, Copy, PartialEq, Eq, Debug)]
pub enum Cause {
    TooLong = 31,
    OutOfTurn = 32,
    TooManyConstraints = 33,
    WrongLength = 34,
    BadHeading = 35,
    BadSize = 36,
    BadHouse = 37,
    BadEnds = 38,
    BadSum = 39,
    BadRow = 40,
    Trailing = 41,
}

// A cause, and the byte at which the fault stands.
#[derive(Clone, Copy, PartialEq, Eq, Debug)]
pub struct Fault<C> {
    pub cause: C,
    pub byte: u32,
}

// A record that cannot be taken off, and where it begins.
pub type RecordFault = Fault<RecordCause>;

// A record that the format refuses, and where it begins.
pub type FormatFault = Fault<Cause>;

// A fault, and how many records came before it.
#[derive(Clone, Copy, PartialEq, Eq, Debug)]
pub struct Counted<F> {
    pub fault: F,
    pub records: u32,
}

// The first fault of a sheet.
#[derive(Clone, Copy, PartialEq, Eq, Debug)]
pub enum SheetFault {
    Record(Counted<RecordFault>),
    Format(Counted<FormatFault>),
}

// The two `number` stay apart: each is one cast of its own enum, and a trait would have these same two bodies and one signature more.
impl RecordCause {
    // The number by which the cause is known.
    pub fn number(self) -> u8
        ensures { result ≡ record_number self }
    {
        self as u8
    }
}

impl Cause {
    // The number by which the cause is known.
    pub fn number(self) -> u8
        ensures { result ≡ cause_number self }
    {
        self as u8
    }
}

impl SheetFault {
    // The number of the fault's cause.
    pub fn number(self) -> u8
        ensures { result ≡ fault_number self }
    {
        match self {
            SheetFault::Record(counted) => counted.fault.cause.number(),
            SheetFault::Format(counted) => counted.fault.cause.number(),
        }
    }

    // The byte at which the fault stands.
    pub fn byte(self) -> u32
        ensures { result ≡ fault_byte self }
    {
        match self {
            SheetFault::Record(counted) => counted.fault.byte,
            SheetFault::Format(counted) => counted.fault.byte,
        }
    }

    // How many records came before.
    pub fn records(self) -> u32
        ensures { result ≡ fault_records self }
    {
        match self {
            SheetFault::Record(counted) => counted.records,
            SheetFault::Format(counted) => counted.records,
        }
    }
}

// What is printed of a refused sheet: the number of the cause, and the byte.
impl fmt::Display for SheetFault {
    ghost output = { λ fault. Some (fault_line fault) };

    fn fmt<W: fmt::Write>(&self, f: &mut fmt::Formatter<W>) -> fmt::Result {
        let number = self.number();
        let byte = self.byte();
        write!(f, "sheet {number} at {byte}")
    }
}

// The two conversions are written out: a derived one has no contract, and the check of a sheet says which fault a `?` makes.
impl From<Counted<RecordFault>> for SheetFault {
    ghost from_gives = { λ x y. y ≡ Record x };

    fn from(x: Counted<RecordFault>) -> SheetFault {
        SheetFault::Record(x)
    }
}

impl From<Counted<FormatFault>> for SheetFault {
    ghost from_gives = { λ x y. y ≡ Format x };

    fn from(x: Counted<FormatFault>) -> SheetFault {
        SheetFault::Format(x)
    }
}

// Adds to a fault how many records came before it.
pub fn after_records<T, F>(outcome: Result<T, F>, records: u32) -> Result<T, Counted<F>>
    ensures { result ≡ counted_result outcome records }
{
    outcome.map_err(|fault| Counted { fault, records })
}
