//! Rows that become working ones once they are violated.

use crate::parts::{Column, Input, Side};
use crate::working::WorkingRows;
use fixed_point::{VALUE_UNIT, clamped_sum, number_at, product, set_number};
use fixed_simplex::{Member, Simplex};
use path_graph::NoMemory;
use std::alloc::Global;

/// How many rows are added at once.
const AT_ONCE: usize = 20;

/// A row, and by how much it is violated.
#[derive(Clone, Copy)]
struct ViolatedRow {
    row: usize,
    by: i64,
}

/// By how much an activity is outside a side, with 24 fractional bits.
fn violation(side: Side, activity: i64) -> i64 {
    let mut most = 0;
    if let Some(low) = side.low {
        most = low
            .saturating_mul(VALUE_UNIT)
            .saturating_sub(activity)
            .max(most);
    }
    if let Some(high) = side.high {
        most = activity
            .saturating_sub(high.saturating_mul(VALUE_UNIT))
            .max(most);
    }
    most
}

/// Adds a column of this value to the activities of its rows.
fn add_column(activities: &mut [i64], column: &Column, value: i64) {
    for entry in column.entries.as_slice() {
        let row = entry.row as usize;
        let sum = clamped_sum(number_at(activities, row), product(value, entry.value));
        set_number(activities, row, sum);
    }
}

/// The activity of each row.
fn row_activities(alloc: Global, input: Input, simplex: &Simplex) -> Result<Vec<i64>, NoMemory> {
    let mut activities = vec![in alloc; 0i64; input.sides.len()]?;
    for basic in simplex.basics() {
        if let Member::Column(place) = basic.member
            && place < input.columns.len()
            && basic.value > 0
        {
            add_column(
                activities.as_mut_slice(),
                &input.columns[place],
                basic.value,
            );
        }
    }
    Ok(activities)
}

/// The rows that are no working ones and are violated by more than `slack`, the most violated first.
fn violated_rows(
    alloc: Global,
    input: Input,
    working: &WorkingRows,
    simplex: &Simplex,
    slack: i64,
) -> Result<Vec<ViolatedRow>, NoMemory> {
    let activities = row_activities(alloc, input, simplex)?;
    let mut violated = Vec::new(alloc);
    for (row, side) in input.sides.iter().enumerate() {
        let by = violation(*side, number_at(activities.as_slice(), row));
        if by > slack && !working.has(row) {
            violated.push(ViolatedRow { row, by })?;
        }
    }
    violated.sort_by_key(|found| found.by.saturating_neg())?;
    Ok(violated)
}

/// Makes the most violated rows working ones. Whether there was one.
pub(crate) fn add_violated(
    alloc: Global,
    input: Input,
    working: &mut WorkingRows,
    simplex: &mut Simplex,
    slack: i64,
) -> Result<bool, NoMemory> {
    let mut violated = violated_rows(alloc, input, working, simplex, slack)?;
    violated.truncate(AT_ONCE.min(working.room()));
    if violated.is_empty() {
        return Ok(false);
    }
    for found in violated.iter() {
        working.add(input.sides, found.row)?;
    }
    working.fill_columns(alloc, input.columns)?;
    simplex.grow(alloc, &working.program)?;
    Ok(true)
}
