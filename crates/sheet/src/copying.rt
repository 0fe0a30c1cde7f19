// Putting the records of a sheet into a buffer, through a writer.
ghost use Rattle.std.specs.Prelude.{◌≡◌, ◌≤◌, ◌/◌, length};
ghost use Rattle.sheet_format.specs.Decoding.{rows_in};
ghost use Rattle.sheet_format.specs.Writing.{new_writer, PutsEntry};
ghost use Rattle.sheet.specs.Outcome.{shown_by};
ghost use Rattle.sheet.specs.Copying.{IsAccepted, Sayable, entry_in, Copied, Rewrites, rewrite_number};
ghost use Rattle.sheet.specs.declared.copying.RewriteFault.TheVariants.{Sheet, Write};

use crate::checking::check;
use crate::formula::Formula;
use crate::reader::{Part, Record, read_record};
use crate::writer::Writer;
use arrayvec::ArrayVec;
use sheet_format::{SheetFault, Variable, WriteFault, row, word};

// Why a sheet is not rewritten: the check refuses it, or the buffer is too short for it.
#[derive(Clone, Copy, PartialEq, Eq, Debug)]
pub enum RewriteFault {
    Sheet(SheetFault),
    Write(WriteFault),
}

impl RewriteFault {
    // The number by which the fault is known.
    pub fn number(self) -> u8
        ensures { result ≡ rewrite_number self }
    {
        match self {
            RewriteFault::Sheet(fault) => fault.number(),
            RewriteFault::Write(fault) => fault.number(),
        }
    }
}

// The two conversions are written out: a derived one has no contract.
impl From<SheetFault> for RewriteFault {
    ghost from_gives = { λ x y. y ≡ Sheet x };

    fn from(x: SheetFault) -> RewriteFault {
        RewriteFault::Sheet(x)
    }
}

impl From<WriteFault> for RewriteFault {
    ghost from_gives = { λ x y. y ≡ Write x };

    fn from(x: WriteFault) -> RewriteFault {
        RewriteFault::Write(x)
    }
}

// the rows of a table, of eight bytes each
#[tactic(auto, using(crate::proofs::Chunks::no_rows, crate::proofs::Chunks::rows_more))]
fn rows_of(bytes: &[u8]) -> ArrayVec<u64, 64>
    requires { length bytes.now ≤ 512 }
    ensures { result.items ≡ rows_in (length bytes.now / 8) bytes.now }
{
    let mut rows = ArrayVec::new();
    for k in 0..bytes.len() / 8 {
        rows.push(row(bytes, 8 * k));
    }
    rows
}

// puts a record that was read, by the call of its kind
fn put_record(
    writer: &mut Writer,
    buffer: &mut [u8],
    taken: Record<'_>,
) -> Result<usize, WriteFault>
    requires { Sayable (shown_by taken) }
    ensures { PutsEntry writer.old buffer.old (entry_in (shown_by taken.entry)) writer.new buffer.new result }
{
    match taken {
        Record::Heading(body) => writer.heading(buffer, word(body, 2)),
        Record::Variable(body) => {
            let size = word(body, 0);
            let house = word(body, 2);
            writer.variable(buffer, Variable { size, house })
        }
        Record::Sum(body) => writer.sum(buffer, body[0], body[1], Formula::of_body(body)),
        Record::Table { left, right, rows } => {
            writer.table(buffer, left, right, &rows_of(rows.bytes))
        }
        Record::ShortTable(_) => unreachable!(),
        Record::Add(body) => writer.add(buffer, word(body, 0)),
        Record::Retract(body) => writer.retract(buffer, word(body, 0)),
        Record::End(_) => writer.end(buffer),
    }
}

// the records of an accepted sheet, one after the other
fn copy(writer: &mut Writer, sheet: &[u8], buffer: &mut [u8]) -> Result<usize, WriteFault>
    requires fresh { writer.old ≡ new_writer }
    requires accepted { IsAccepted sheet.now }
    ensures { Copied sheet.now buffer.old buffer.new result }
{
    let mut left = Part {
        bytes: sheet,
        place: 0,
    };
    loop {
        let (taken, rest) = read_record(left.bytes, left.place as u32).unwrap();
        let place = put_record(writer, buffer, taken)?;
        if rest.bytes.is_empty() {
            return Ok(place);
        }
        left = rest;
    }
}

// Puts every record of a sheet that the check accepts into a buffer, through a writer, and answers how many bytes there are: they are the sheet's. A
// buffer that is too short then holds as many of the sheet's first records as leave four bytes for the end, and is else as it was.
pub fn rewrite(sheet: &[u8], buffer: &mut [u8]) -> Result<usize, RewriteFault>
    ensures { Rewrites sheet.now buffer.old buffer.new result }
{
    check(sheet)?;
    let mut writer = Writer::new();
    let copied = copy(&mut writer, sheet, buffer);
    let _ = writer.abandon();
    Ok(copied?)
}
