// Writing a sheet, one record at a time, into a buffer that each call is lent.
ghost use Rattle.std.specs.Prelude.{◌≡◌, ℕ, List, ◌+◌, ◌<◌, ◌≤◌, true, false, ◌∷◌, ◌++◌, length, Some};
ghost use Rattle.sheet_format.specs.Kinds.{kind_number};
ghost use Rattle.sheet_format.specs.Value.{sum, table, add, retract};
ghost use Rattle.sheet_format.specs.Encoding.{framed, heading_record, variable_record, constraint_record};
ghost use Rattle.sheet_format.specs.Numbers.{two, four, eight};
ghost use Rattle.std.specs.List.{flat_map};
ghost use Rattle.arrayvec.specs.ArrayVec.{array_vec_len};
ghost use Rattle.std.proofs.Common.{of_z};
ghost use Rattle.std.specs.Int.{w16, w32};
ghost use Rattle.sheet_format.specs.Beginnings.{Begun, nothing_begun};
ghost use Rattle.sheet_format.specs.Written.{Written, Grows};
ghost use Rattle.sheet.specs.Sizes.{SizesLow};
ghost use Rattle.sheet.specs.Weighing.{RecordFits, Weighed};
ghost use Rattle.sheet_format.specs.Reading.{Shown, shown};
ghost use Rattle.sheet_format.specs.Writing.{WriterState, new_writer, heads, has_variable, has_constraint, has_move, ends_here, lies_in, laid, PutsRecord, PutsEntry, Abandons};

use crate::formula::Formula;
use crate::progress::{Next, Progress};
use crate::reader::record_of;
use arrayvec::ArrayVec;
use sheet_format::{Kind, Variable, WriteFault};
use std::marker::Model;

// A writer of a sheet: how far the check of what it wrote has come, the place reached, and whether more may come. It keeps no borrow of the buffer.
// It may be let go only when it is ended or abandoned.
pub struct Writer {
    progress: Progress,
    place: usize,
    is_open: bool,
}

impl Model for Writer {
    ghost Value = { WriterState };

    ghost view = { λ w. record { tally = w.progress; place = w.place; is_open = w.is_open } };

    ghost invariant = { λ w. (w.place ≤ 65535) × (w.progress.moves ≤ w.place) × SizesLow w.progress.variables };
}

impl Drop for Writer {
    fn drop(self)
        requires { self.is_open ≡ false }
    {
        let Writer {
            progress: _,
            place: _,
            is_open: _,
        } = self;
    }
}

// what ends before the byte `after` lies in a buffer of so many bytes, and in a sheet
fn lies_in(size: usize, after: usize) -> bool
    ensures { result ≡ lies_in size after }
{
    after <= size && after <= 65535
}

// puts bytes into the buffer from a place on
fn lay(buffer: &mut [u8], place: usize, bytes: &[u8])
    requires { place + length bytes.now ≤ length buffer.old }
    ensures { buffer.new ≡ laid place bytes.now buffer.old }
{
    buffer[place..place + bytes.len()].copy_from_slice(bytes);
}

// puts a record into the buffer: its length, its kind and its body
#[tactic(auto, using(crate::proofs::Laying::laid_head))]
fn lay_record(buffer: &mut [u8], place: usize, kind: Kind, body: &[u8])
    requires lies { place + (4 + length body.now) ≤ length buffer.old }
    requires short { place + (4 + length body.now) ≤ 65535 }
    ensures { buffer.new ≡ laid place (framed (record { kind = kind_number kind; body = body.now })) buffer.old }
{
    let [l0, l1] = (4 + body.len() as u16).to_le_bytes();
    let [k0, k1] = kind.number().to_le_bytes();
    lay(buffer, place, &[l0, l1, k0, k1]);
    lay(buffer, place + 4, body);
}

// the body of a heading
fn heading_body(n: u16) -> [u8; 4]
    ensures { result ≡ (heading_record n).body }
{
    let [n0, n1] = n.to_le_bytes();
    [1, 0, n0, n1]
}

// the body of a variable
fn variable_body(variable: Variable) -> [u8; 4]
    ensures { result ≡ (variable_record variable).body }
{
    let [s0, s1] = variable.size.to_le_bytes();
    let [h0, h1] = variable.house.to_le_bytes();
    [s0, s1, h0, h1]
}

// a factor of a sum
fn factor_bytes(z: i16) -> [u8; 2]
    ensures { result ≡ two (of_z w16 z) }
{
    let [z0, z1] = z.to_le_bytes();
    [z0, z1]
}

// a limit of a sum
fn limit_bytes(z: i32) -> [u8; 4]
    ensures { result ≡ four (of_z w32 z) }
{
    let [z0, z1, z2, z3] = z.to_le_bytes();
    [z0, z1, z2, z3]
}

// the body of a sum constraint
fn sum_body(left: u8, right: u8, formula: Formula) -> [u8; 14]
    ensures { result ≡ (constraint_record (sum left right formula.m formula.k formula.lo formula.hi)).body }
{
    let [m0, m1] = factor_bytes(formula.m);
    let [k0, k1] = factor_bytes(formula.k);
    let [l0, l1, l2, l3] = limit_bytes(formula.lo);
    let [h0, h1, h2, h3] = limit_bytes(formula.hi);
    [left, right, m0, m1, k0, k1, l0, l1, l2, l3, h0, h1, h2, h3]
}

// the body of a move
fn index_body(index: u16) -> [u8; 2]
    ensures { result ≡ two index }
{
    let [i0, i1] = index.to_le_bytes();
    [i0, i1]
}

// a row of a table
fn row_bytes(row: u64) -> [u8; 8]
    ensures { result ≡ eight row }
{
    let [r0, r1, r2, r3, r4, r5, r6, r7] = row.to_le_bytes();
    [r0, r1, r2, r3, r4, r5, r6, r7]
}

// puts a row of a table after what is there
fn push_row(body: &mut ArrayVec<u8, 522>, row: u64)
    requires { array_vec_len body.old + 8 ≤ 522 }
    ensures items { body.new.items ≡ body.old.items ++ eight row }
    ensures len { array_vec_len body.new ≡ array_vec_len body.old + 8 }
{
    body.try_extend_from_slice(&row_bytes(row)).unwrap();
}

// the body of a table constraint of so many rows that it fits
fn table_body(left: u8, right: u8, rows: &[u64]) -> ArrayVec<u8, 522>
    requires { length rows.now ≤ 65 }
    ensures { result.items ≡ left ∷ (right ∷ flat_map eight rows.now) }
{
    let mut body = ArrayVec::new();
    body.push(left);
    body.push(right);
    for row in rows {
        push_row(&mut body, *row);
    }
    body
}

impl Writer {
    // A writer that has written nothing.
    #[tactic(auto, using(sheet_law::proofs::Growing::nothing_written))]
    pub fn new() -> Writer
        ensures call { result ≡ new_writer }
        ensures written { (xs : List ℕ) → Written nothing_begun result xs }
    {
        Writer {
            progress: Progress::new(),
            place: 0,
            is_open: true,
        }
    }

    // what a record of a kind would add to a sheet in so many bytes, judged as the check judges what the reader takes off, and the place after it
    #[tactic(auto, using(crate::proofs::Putting::put_short))]
    fn judge(&self, size: usize, kind: Kind, body: &[u8]) -> Result<(Next, usize), WriteFault>
        ensures long { RecordFits self.now size (4 + length body.now) result }
        ensures judged { (s : Shown) → shown (kind_number kind) body.now self.now.place ≡ Some s → Weighed self.now size s (4 + length body.now) result }
    {
        if !self.is_open {
            return Err(WriteFault::Closed);
        }
        let next = self
            .progress
            .judge(record_of(kind, body, self.place as u32))?;
        let after = self.place + (4 + body.len());
        if !lies_in(size, after + next.kept()) {
            return Err(WriteFault::ShortBuffer);
        }
        Ok((next, after))
    }

    // puts a record of a kind, or leaves all as it was
    fn put(&mut self, buffer: &mut [u8], kind: Kind, body: &[u8]) -> Result<usize, WriteFault>
        ensures { PutsRecord self.old buffer.old (record { kind = kind_number kind; body = body.now }) self.new buffer.new result }
    {
        let (next, after) = self.judge(buffer.len(), kind, body)?;
        lay_record(buffer, self.place, kind, body);
        self.progress.take(next, after as u32);
        self.place = after;
        self.is_open = !next.is_end();
        Ok(after)
    }

    // Writes the heading: the start word 1, and how many variables follow. Like each call, it answers the place reached.
    #[tactic(auto, using(crate::proofs::Entries::put_entry, sheet_law::proofs::Growing::grows))]
    pub fn heading(&mut self, buffer: &mut [u8], n: u16) -> Result<usize, WriteFault>
        ensures call { PutsEntry self.old buffer.old (heads n) self.new buffer.new result }
        ensures written { (b : Begun) → Written b self.old buffer.old → Grows b (heads n) self.new buffer.new result }
    {
        self.put(buffer, Kind::Heading, &heading_body(n))
    }

    // Writes a variable.
    #[tactic(auto, using(crate::proofs::Entries::put_entry, sheet_law::proofs::Growing::grows))]
    pub fn variable(&mut self, buffer: &mut [u8], variable: Variable) -> Result<usize, WriteFault>
        ensures call { PutsEntry self.old buffer.old (has_variable variable) self.new buffer.new result }
        ensures written { (b : Begun) → Written b self.old buffer.old → Grows b (has_variable variable) self.new buffer.new result }
    {
        self.put(buffer, Kind::Variable, &variable_body(variable))
    }

    // Writes a sum constraint between two variables.
    pub fn sum(
        &mut self,
        buffer: &mut [u8],
        left: u8,
        right: u8,
        formula: Formula,
    ) -> Result<usize, WriteFault>
        ensures call { PutsEntry self.old buffer.old (has_constraint (sum left right formula.m formula.k formula.lo formula.hi)) self.new buffer.new result }
        ensures written { (b : Begun) → Written b self.old buffer.old → Grows b (has_constraint (sum left right formula.m formula.k formula.lo formula.hi)) self.new buffer.new result }
    {
        self.put(buffer, Kind::Sum, &sum_body(left, right, formula))
    }

    // Writes a table constraint between two variables, with a row for each value of the first. A table of more rows than a variable can have values
    // is refused by its first 65.
    pub fn table(
        &mut self,
        buffer: &mut [u8],
        left: u8,
        right: u8,
        rows: &[u64],
    ) -> Result<usize, WriteFault>
        ensures call { PutsEntry self.old buffer.old (has_constraint (table left right rows.now)) self.new buffer.new result }
        ensures written { (b : Begun) → Written b self.old buffer.old → Grows b (has_constraint (table left right rows.now)) self.new buffer.new result }
    {
        // A field is read, so that the proof knows what the type promises: no variable has more than 64 values.
        let _ = &self.place;
        let body = table_body(left, right, &rows[..rows.len().min(65)]);
        self.put(buffer, Kind::Table, &body)
    }

    // Writes a move that adds the constraint at an index.
    #[tactic(auto, using(crate::proofs::Entries::put_entry, sheet_law::proofs::Growing::grows))]
    pub fn add(&mut self, buffer: &mut [u8], index: u16) -> Result<usize, WriteFault>
        ensures call { PutsEntry self.old buffer.old (has_move (add index)) self.new buffer.new result }
        ensures written { (b : Begun) → Written b self.old buffer.old → Grows b (has_move (add index)) self.new buffer.new result }
    {
        self.put(buffer, Kind::Add, &index_body(index))
    }

    // Writes a move that retracts the constraint at an index.
    #[tactic(auto, using(crate::proofs::Entries::put_entry, sheet_law::proofs::Growing::grows))]
    pub fn retract(&mut self, buffer: &mut [u8], index: u16) -> Result<usize, WriteFault>
        ensures call { PutsEntry self.old buffer.old (has_move (retract index)) self.new buffer.new result }
        ensures written { (b : Begun) → Written b self.old buffer.old → Grows b (has_move (retract index)) self.new buffer.new result }
    {
        self.put(buffer, Kind::Retract, &index_body(index))
    }

    // Writes the end. The sheet is whole, and the writer may be let go.
    #[tactic(auto, using(crate::proofs::Entries::put_entry, sheet_law::proofs::Growing::grows))]
    pub fn end(&mut self, buffer: &mut [u8]) -> Result<usize, WriteFault>
        ensures call { PutsEntry self.old buffer.old ends_here self.new buffer.new result }
        ensures written { (b : Begun) → Written b self.old buffer.old → Grows b ends_here self.new buffer.new result }
    {
        self.put(buffer, Kind::End, &[])
    }

    // Gives the sheet up and writes nothing. The writer may be let go.
    pub fn abandon(&mut self) -> Result<usize, WriteFault>
        ensures call { Abandons self.old self.new result }
        ensures written { (b : Begun) (xs : List ℕ) → Written b self.old xs → Written b self.new xs }
    {
        if self.is_open {
            self.is_open = false;
            Ok(self.place)
        } else {
            Err(WriteFault::Closed)
        }
    }
}
