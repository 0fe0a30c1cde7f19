// Taking one record off the bytes that are left of a sheet.
ghost use Rattle.std.specs.Prelude.{◌≡◌, ◌+◌, ◌≤◌, length, drop};
ghost use Rattle.sheet_format.specs.Kinds.{kind_number};
ghost use Rattle.sheet_format.specs.Reading.{shown, shown_table};
ghost use Rattle.sheet.specs.Outcome.{Answers, Taken, shown_by};

use sheet_format::{Kind, RecordCause, RecordFault, word};

// Some bytes of a sheet, and the byte of the sheet at which they begin.
#[derive(Clone, Copy)]
pub struct Part<'a> {
    pub bytes: &'a [u8],
    pub place: usize,
}

// A record by its kind, with its body as it stands in the sheet. Of a table with both its ends, all that follows them are rows. The ends are
// two fields: the type is public and has them so.
#[derive(Clone, Copy)]
pub enum Record<'a> {
    Heading(&'a [u8]),
    Variable(&'a [u8]),
    Sum(&'a [u8]),
    Table { left: u8, right: u8, rows: Part<'a> },
    ShortTable(&'a [u8]),
    Add(&'a [u8]),
    Retract(&'a [u8]),
    End(&'a [u8]),
}

// A table constraint that begins at `place`: its ends and its rows, or its body where that is too short for both ends. The place is handed down
// beside the body, with no struct of both: the body begins four bytes after it. By places, which take the prover a fifth of the time of a slice pattern.
fn table_record(body: &[u8], place: u32) -> Record<'_>
    ensures { shown_by result ≡ shown_table body.now place }
{
    if body.len() < 2 {
        return Record::ShortTable(body);
    }
    Record::Table {
        left: body[0],
        right: body[1],
        rows: Part {
            bytes: &body[2..],
            place: place as usize + 6,
        },
    }
}

// The record of a kind, with a body, that begins at `place`.
pub(crate) fn record_of(kind: Kind, body: &[u8], place: u32) -> Record<'_>
    ensures { shown (kind_number kind) body.now place ≡ Some (shown_by result) }
{
    match kind {
        Kind::Heading => Record::Heading(body),
        Kind::Variable => Record::Variable(body),
        Kind::Sum => Record::Sum(body),
        Kind::Table => table_record(body, place),
        Kind::Add => Record::Add(body),
        Kind::Retract => Record::Retract(body),
        Kind::End => Record::End(body),
    }
}

// what is left of bytes that begin at `place` after the first so many of them
fn rest_after(input: &[u8], place: u32, many: usize) -> Part<'_>
    requires { many ≤ length input.now }
    ensures left { result.bytes.now ≡ drop many input.now }
    ensures next { result.place ≡ place + many }
{
    Part {
        bytes: &input[many..],
        place: place as usize + many,
    }
}

// the record that `input` begins with, and what follows it
fn take_record(input: &[u8], place: u32) -> Result<(Record<'_>, Part<'_>), RecordCause>
    ensures { Taken input.now place result }
{
    if input.is_empty() {
        return Err(RecordCause::Missing);
    }
    let length = word(input, 0) as usize;
    if input.len() < 4 || length < 4 || length > input.len() {
        return Err(RecordCause::BadLength);
    }
    let kind = Kind::try_from(word(input, 2))?;
    let record = record_of(kind, &input[4..length], place);
    Ok((record, rest_after(input, place, length)))
}

// Takes one record off `input`, which begins at the byte `place` of its sheet, and hands back what follows it, with the place of that.
pub fn read_record(input: &[u8], place: u32) -> Result<(Record<'_>, Part<'_>), RecordFault>
    ensures { Answers input.now place result }
{
    take_record(input, place).map_err(|cause| RecordFault { cause, byte: place })
}
