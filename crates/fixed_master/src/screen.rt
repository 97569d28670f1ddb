//! Which columns are used, which rows the marker column names, and how dear a violated side is.

use crate::limits::{MAX_ENTRY, MAX_USED_COST};
use crate::parts::{Column, Entry};
use fixed_point::{common_divisor, magnitude, number_at, set_flag, set_number};
use path_graph::NoMemory;
use std::alloc::Global;

/// The penalty without columns.
const LEAST_PENALTY: i64 = 1 << 16;
/// How many times the greatest cost the penalty is.
const PENALTY_COSTS: i64 = 16;

/// Whether an entry names a row and is small enough.
fn entry_fits(entry: Entry, rows: usize) -> bool {
    (entry.row as usize) < rows && magnitude(entry.value) <= MAX_ENTRY
}

/// Whether the arithmetic has room for a column.
fn column_fits(column: &Column, rows: usize) -> bool {
    let entries = column.entries.as_slice();
    magnitude(column.cost) <= MAX_USED_COST && entries.iter().all(|entry| entry_fits(*entry, rows))
}

/// Whether each entry of a column is 0, so that it is no column of the program but a marker.
fn is_marker(column: &Column) -> bool {
    column
        .entries
        .as_slice()
        .iter()
        .all(|entry| entry.value == 0)
}

/// Whether a column is used: it fits, and is no marker.
pub(crate) fn is_used(column: &Column, rows: usize) -> bool {
    column_fits(column, rows) && !is_marker(column)
}

/// The place of the first marker. The columns before it were the last basis.
pub(crate) fn marker_place(columns: &[Column], rows: usize) -> Option<usize> {
    for (place, column) in columns.iter().enumerate() {
        if is_marker(column) && column_fits(column, rows) {
            return Some(place);
        }
    }
    None
}

/// The rows that the marker names: those whose multiplier was not 0.
pub(crate) fn marked_rows(
    alloc: Global,
    columns: &[Column],
    rows: usize,
) -> Result<Vec<bool>, NoMemory> {
    let mut marked = vec![in alloc; false; rows]?;
    if let Some(place) = marker_place(columns, rows)
        && place < columns.len()
    {
        for entry in columns[place].entries.as_slice() {
            set_flag(marked.as_mut_slice(), entry.row as usize, true);
        }
    }
    Ok(marked)
}

/// The penalty for a unit of violation.
pub(crate) fn first_penalty(columns: &[Column], rows: usize) -> i64 {
    let mut dearest = 0;
    for column in columns {
        if is_used(column, rows) {
            dearest = magnitude(column.cost).max(dearest);
        }
    }
    if dearest == 0 {
        LEAST_PENALTY
    } else {
        dearest.saturating_mul(PENALTY_COSTS).min(MAX_USED_COST)
    }
}

/// The greatest common divisor of the entries of each row.
pub(crate) fn row_divisors(
    alloc: Global,
    columns: &[Column],
    rows: usize,
) -> Result<Vec<i64>, NoMemory> {
    let mut divisors = vec![in alloc; 0i64; rows]?;
    for column in columns {
        if column_fits(column, rows) {
            divide_by_entries(divisors.as_mut_slice(), column.entries.as_slice());
        }
    }
    Ok(divisors)
}

/// Replaces the divisor of each entry's row by its greatest common divisor with the entry.
fn divide_by_entries(divisors: &mut [i64], entries: &[Entry]) {
    for entry in entries {
        let row = entry.row as usize;
        let divisor = common_divisor(number_at(divisors, row), entry.value);
        set_number(divisors, row, divisor);
    }
}
