//! The working rows: the rows that the simplex method sees, with their columns.

ghost use Rattle.std.specs.Prelude.{pos, ◌≤ℤ◌, IsTrue, IsFalse};
ghost use Rattle.path_graph.specs.Within.{IsWithin};

use crate::limits::MAX_WORKING_ROWS;
use crate::parts::{Column, Entry, Input, Side};
use crate::screen::{first_penalty, is_used, row_divisors};
use fixed_point::{Term, VALUE_UNIT, flag_at, number_at, product, quotient};
use fixed_simplex::{LinearProgram, Span, SparseColumn};
use path_graph::NoMemory;
use std::alloc::Global;

/// A working row: its number among all rows, and the common divisor of its entries, over which it is taken.
#[derive(Clone, Copy)]
pub(crate) struct WorkingRow {
    pub(crate) row: usize,
    pub(crate) divisor: i64,
    /// The span of its logical by its true side.
    true_span: Span,
}

/// The working rows, and the linear program over them.
#[derive(Drop)]
pub(crate) struct WorkingRows {
    pub(crate) rows: Vec<WorkingRow>,
    pub(crate) program: LinearProgram,
    /// The place of each row among the working ones.
    places: Vec<Option<usize>>,
    /// The greatest common divisor of the entries of each row.
    divisors: Vec<i64>,
}

/// How far a side is opened, with 24 fractional bits, by a fixed hash of the row's number: both ends of an equal side
/// move together by at most 2^-13, others move apart by 2^-10 to 2^-8.4.
fn opening(row: usize, is_equal: bool) -> i64
    ensures together { IsTrue is_equal → IsWithin 2_048 result }
    ensures apart { IsFalse is_equal → (pos 16_384 ≤ℤ result) × (result ≤ℤ pos 49_144) }
{
    let hash = (row as u64).wrapping_mul(0x9e37_79b9_7f4a_7c15) >> 52;
    let part = hash as i64;
    if is_equal {
        part - 2_048
    } else {
        8 * (part + 2_048)
    }
}

/// The end of a logical's span that belongs to an end of a side: over the divisor, negated and moved.
fn span_end(end: Option<i64>, divisor: i64, moved_by: i64) -> Option<i64> {
    let end = end?;
    Some(moved_by.saturating_sub(quotient(product(end, VALUE_UNIT), divisor)))
}

/// The span of the logical of a row whose ends are moved.
fn span_of_side(side: Side, divisor: i64, floor_moved_by: i64, ceiling_moved_by: i64) -> Span {
    Span {
        floor: span_end(side.high, divisor, floor_moved_by),
        ceiling: span_end(side.low, divisor, ceiling_moved_by),
    }
}

/// The span of the logical of a row that is opened a little.
fn opened_span(row: usize, side: Side, divisor: i64) -> Span {
    let is_equal = side.low == side.high && side.low != Some(0);
    let moved_by = opening(row, is_equal);
    if is_equal {
        span_of_side(side, divisor, -moved_by, -moved_by)
    } else {
        span_of_side(side, divisor, -moved_by, moved_by)
    }
}

/// Whether weights of 0 violate a side.
fn is_violated_by_zero(side: Side) -> bool {
    side.low.is_some_and(|low| low > 0) || side.high.is_some_and(|high| high < 0)
}

/// The coefficients of a column in the working rows.
fn working_terms(
    alloc: Global,
    places: &[Option<usize>],
    rows: &[WorkingRow],
    column: &Column,
) -> Result<Vec<Term>, NoMemory> {
    let mut terms = Vec::new(alloc);
    for entry in column.entries.as_slice() {
        if let Some(row) = place_of(places, entry.row as usize)
            && row < rows.len()
            && entry.value != 0
        {
            let value = quotient(i128::from(entry.value), rows[row].divisor);
            terms.push(Term { row, value })?;
        }
    }
    Ok(terms)
}

/// The place of a row among the working ones.
fn place_of(places: &[Option<usize>], row: usize) -> Option<usize> {
    if row < places.len() {
        places[row]
    } else {
        None
    }
}

impl WorkingRows {
    /// No working rows.
    pub(crate) fn new(alloc: Global, input: Input) -> Result<WorkingRows, NoMemory> {
        let count = input.sides.len();
        let mut columns = Vec::new(alloc);
        for column in input.columns {
            columns.push(SparseColumn {
                cost: column.cost,
                is_usable: is_used(column, count),
                terms: Vec::new(alloc),
            })?;
        }
        Ok(WorkingRows {
            rows: Vec::new(alloc),
            program: LinearProgram {
                spans: Vec::new(alloc),
                columns,
                penalty: first_penalty(input.columns, count),
            },
            places: vec![in alloc; None; count]?,
            divisors: row_divisors(alloc, input.columns, count)?,
        })
    }

    /// How many more rows may become working ones.
    pub(crate) fn room(&self) -> usize {
        MAX_WORKING_ROWS.saturating_sub(self.rows.len())
    }

    /// Whether a row is worked on.
    pub(crate) fn has(&self, row: usize) -> bool {
        place_of(self.places.as_slice(), row).is_some()
    }

    /// Makes a row a working one, unless it is one or there are too many. The columns are to be filled in after that.
    pub(crate) fn add(&mut self, sides: &[Side], row: usize) -> Result<(), NoMemory> {
        if row < sides.len() && row < self.places.len() && self.room() > 0 && !self.has(row) {
            let side = sides[row];
            let divisor = number_at(self.divisors.as_slice(), row).max(1);
            self.places[row] = Some(self.rows.len());
            self.program.spans.push(opened_span(row, side, divisor))?;
            self.rows.push(WorkingRow {
                row,
                divisor,
                true_span: span_of_side(side, divisor, 0, 0),
            })?;
        }
        Ok(())
    }

    /// Adds the rows that are marked or that weights of 0 violate.
    pub(crate) fn add_first(&mut self, sides: &[Side], marked: &[bool]) -> Result<(), NoMemory> {
        for (row, side) in sides.iter().enumerate() {
            if is_violated_by_zero(*side) || flag_at(marked, row) {
                self.add(sides, row)?;
            }
        }
        Ok(())
    }

    /// Adds the rows in which a column of negative cost has an entry: without them nothing might end its rise.
    pub(crate) fn add_of_negative_costs(&mut self, input: Input) -> Result<(), NoMemory> {
        for (place, column) in input.columns.iter().enumerate() {
            if column.cost < 0 && self.program.is_usable(place) {
                self.add_of_entries(input.sides, column.entries.as_slice())?;
            }
        }
        Ok(())
    }

    /// Adds the rows in which an entry is not 0.
    fn add_of_entries(&mut self, sides: &[Side], entries: &[Entry]) -> Result<(), NoMemory> {
        for entry in entries {
            if entry.value != 0 {
                self.add(sides, entry.row as usize)?;
            }
        }
        Ok(())
    }

    /// Fills in the coefficients of each column in the working rows.
    pub(crate) fn fill_columns(
        &mut self,
        alloc: Global,
        columns: &[Column],
    ) -> Result<(), NoMemory> {
        let rows = self.rows.as_slice();
        let places = self.places.as_slice();
        for (sparse, column) in self.program.columns.iter_mut().zip(columns) {
            if sparse.is_usable {
                sparse.terms = working_terms(alloc, places, rows, column)?;
            }
        }
        Ok(())
    }

    /// Takes back the opening of the sides.
    pub(crate) fn restore_sides(&mut self) {
        for (span, working) in self.program.spans.iter_mut().zip(self.rows.as_slice()) {
            *span = working.true_span;
        }
    }

    /// The rows whose logical a start leaves out of the basis: marked ones and equal sides.
    pub(crate) fn tight_rows(&self, alloc: Global, marked: &[bool]) -> Result<Vec<bool>, NoMemory> {
        let mut tight = Vec::new(alloc);
        for working in self.rows.iter() {
            let span = working.true_span;
            let is_equal = span.floor.is_some() && span.floor == span.ceiling;
            tight.push(is_equal || flag_at(marked, working.row))?;
        }
        Ok(tight)
    }
}
