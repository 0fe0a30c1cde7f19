// One constraint of a sheet, seen through the record that holds it.
ghost use Rattle.std.specs.Prelude.{◌≡◌, ◌+◌, ◌*◌, ◌/◌, ◌<◌, ◌&&◌, nat_lt, length, pos, negsuc, ◌+ℤ◌, ◌*ℤ◌, ◌≤ℤ◌};
ghost use Rattle.std.specs.Option.{option_map};
ghost use Rattle.sheet_format.specs.Decoding.{rows_in};
ghost use Rattle.sheet_format.specs.Verdict.{between_z};
ghost use Rattle.sheet_catalog.specs.Meant.{sum_allows, table_allows, pair_allowed};
ghost use Rattle.sheet.specs.Outcome.{shown_by};
ghost use Rattle.sheet_catalog.specs.Viewed.{meant, sum_shown, constraint_shown};

use sheet::{Formula, Record};
use sheet_format::row;

// Which pairs a constraint allows.
#[derive(Clone, Copy)]
pub enum Pairs<'a> {
    Sum(Formula),
    // the rows as they stand in the sheet, eight bytes each
    Table(&'a [u8]),
}

// A constraint between two variables of the sheet. Its ends are two fields, as in the public record of a table from which they are copied.
#[derive(Clone, Copy)]
pub struct Constraint<'a> {
    pub left: u8,
    pub right: u8,
    pub pairs: Pairs<'a>,
}

// the sum constraint that a body holds
fn sum_in(body: &[u8]) -> Option<Constraint<'_>>
    ensures { option_map meant result ≡ sum_shown body.now }
{
    if body.len() < 14 {
        return None;
    }
    Some(Constraint {
        left: body[0],
        right: body[1],
        pairs: Pairs::Sum(Formula::of_body(body)),
    })
}

// The constraint that a record holds, if it is one.
pub(crate) fn constraint_in(record: Record<'_>) -> Option<Constraint<'_>>
    ensures { option_map meant result ≡ constraint_shown (shown_by «record».entry) }
{
    match record {
        Record::Sum(body) => sum_in(body),
        Record::Table { left, right, rows } => Some(Constraint {
            left,
            right,
            pairs: Pairs::Table(rows.bytes),
        }),
        _ => None,
    }
}

// A factor times a value: far from the limits of its type.
fn term(factor: i16, value: u8) -> i64
    ensures product { result ≡ factor *ℤ pos value }
    ensures low { negsuc 8388607 ≤ℤ result }
    ensures high { result ≤ℤ pos 8388607 }
{
    factor as i64 * value as i64
}

fn within(lo: i32, hi: i32, total: i64) -> bool
    ensures { result ≡ between_z lo hi total }
{
    lo as i64 <= total && total <= hi as i64
}

// m * x + k * y, which does not wrap.
#[tactic(auto, using(crate::proofs::Terms::total_of))]
fn total(formula: Formula, x: u8, y: u8) -> i64
    ensures { result ≡ formula.m *ℤ pos x +ℤ formula.k *ℤ pos y }
{
    term(formula.m, x) + term(formula.k, y)
}

// Does the formula hold for these values?
fn holds(formula: Formula, x: u8, y: u8) -> bool
    ensures { result ≡ sum_allows formula.m formula.k formula.lo formula.hi x y }
{
    within(formula.lo, formula.hi, total(formula, x, y))
}

// Is bit y of row x set? No past the rows.
#[tactic(auto, using(crate::proofs::TableRows::row_allows, crate::proofs::TableRows::row_refuses))]
fn row_has(rows: &[u8], x: usize, y: usize) -> bool
    ensures { result ≡ table_allows (rows_in (length rows.now / 8) rows.now) x y }
{
    x < rows.len() / 8 && bits::has(row(rows, 8 * x), y)
}

impl<'a> Constraint<'a> {
    // Does the constraint allow x beside y, both below 64?
    pub(crate) fn allows(self, x: usize, y: usize) -> bool
        ensures { result ≡ (nat_lt x 64 && (nat_lt y 64 && pair_allowed (meant self.entry) x y)) }
    {
        if x >= 64 || y >= 64 {
            return false;
        }
        match self.pairs {
            Pairs::Sum(formula) => holds(formula, x as u8, y as u8),
            Pairs::Table(rows) => row_has(rows, x, y),
        }
    }
}
