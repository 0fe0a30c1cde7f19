// The check of a whole sheet.
ghost use Rattle.std.specs.Prelude.{◌≡◌, suc, ◌+◌, ◌*◌, ◌≤◌, length};
ghost use Rattle.sheet_format.specs.Verdict.{verdict, walked, nothing_yet, format_fault};
ghost use Rattle.sheet_format.specs.Law.{Law};

use crate::progress::Progress;
use crate::reader::read_record;
use sheet_format::{Cause, Counted, FormatFault, SheetFault, Summary, after_records};
use std::ops::ControlFlow;

// A walk over a sheet, record by record: how far the check has come, the bytes that are left, the place at which they begin, and how many
// records came before it. A record has four bytes or more.
#[derive(Drop)]
pub struct Walk<'a> {
    progress: Progress,
    input: &'a [u8],
    place: u32,
    records: u32,
    ghost short: { place + length input.now ≤ 65535 },
    ghost counted: { 4 * records ≤ place },
    ghost few: { progress.moves ≤ records },
}

// the fault of a sheet that the format refuses at a byte, with so many records before
fn refused(cause: Cause, byte: u32, records: u32) -> SheetFault
    ensures { Err result ≡ format_fault cause byte records }
{
    Counted {
        fault: FormatFault { cause, byte },
        records,
    }
    .into()
}

impl<'a> Walk<'a> {
    ghost use Rattle.sheet.specs.Advance.{Advanced};

    // One record more: the walk stands after it, or the sheet is accepted. By `&mut`: a walk that is handed over and back is copied for each record.
    fn advance(&mut self) -> Result<ControlFlow<Summary>, SheetFault>
        ensures { Advanced self.old result self.new }
    {
        let Walk {
            progress,
            input,
            place: next_place,
            records: next_records,
        } = self;
        let place = *next_place;
        let records = *next_records;
        let (taken, rest) = after_records(read_record(input, place), records)?;
        let end = rest.place as u32;
        let flow = progress
            .admit(taken, end)
            .map_err(|cause| refused(cause, place, records))?;
        match flow {
            ControlFlow::Continue(()) => {
                *input = rest.bytes;
                *next_place = end;
                *next_records = records + 1;
            }
            ControlFlow::Break(_) => {
                if !rest.bytes.is_empty() {
                    return Err(refused(Cause::Trailing, end, records + 1));
                }
            }
        }
        Ok(flow)
    }
}

// The records of a sheet one by one, to its end or to its first fault.
fn walk_through(sheet: &[u8]) -> Result<Summary, SheetFault>
    requires { length sheet.now ≤ 65535 }
    ensures { result ≡ walked (suc (length sheet.now)) sheet.now 0 0 nothing_yet }
{
    let mut walk = Walk {
        progress: Progress::new(),
        input: sheet,
        place: 0,
        records: 0,
    };
    loop {
        match walk.advance()? {
            ControlFlow::Break(summary) => return Ok(summary),
            ControlFlow::Continue(()) => {}
        }
    }
}

// Accepts a sheet, or finds its first fault. It accepts just the encodings of valid sheets; the bytes before a fault are the longest beginning of
// one, and as many records as it counts, unless a whole sheet is followed by more bytes or there are too many.
pub fn check(sheet: &[u8]) -> Result<Summary, SheetFault>
    ensures verdict { result ≡ verdict sheet.now }
    ensures law { Law sheet.now result }
{
    if sheet.len() > 65535 {
        return Err(refused(Cause::TooLong, 65535, 0));
    }
    walk_through(sheet)
}
