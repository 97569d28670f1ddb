//! The start: the rows that are worked on from the first, and the last basis.

use crate::parts::Input;
use crate::screen::{marked_rows, marker_place};
use crate::working::WorkingRows;
use fixed_simplex::{LinearProgram, Simplex};
use path_graph::NoMemory;
use std::alloc::Global;

/// The columns before the marker that may be basic.
fn last_basis(
    alloc: Global,
    program: &LinearProgram,
    marker: Option<usize>,
) -> Result<Vec<usize>, NoMemory> {
    let mut columns = Vec::new(alloc);
    if let Some(end) = marker {
        for place in 0..end {
            if program.is_usable(place) {
                columns.push(place)?;
            }
        }
    }
    Ok(columns)
}

/// The basis of logicals with the last basis seated in it, and the first working rows.
pub(crate) fn start(
    alloc: Global,
    input: Input,
    working: &mut WorkingRows,
) -> Result<Simplex, NoMemory> {
    let rows = input.sides.len();
    let marked = marked_rows(alloc, input.columns, rows)?;
    working.add_first(input.sides, marked.as_slice())?;
    working.add_of_negative_costs(input)?;
    working.fill_columns(alloc, input.columns)?;
    let program = &working.program;
    let mut simplex = Simplex::new(alloc, program)?;
    let last = last_basis(alloc, program, marker_place(input.columns, rows))?;
    let tight = working.tight_rows(alloc, marked.as_slice())?;
    simplex.seat(alloc, program, last.as_slice(), tight.as_slice())?;
    simplex.find_values(program);
    simplex.find_prices(program);
    simplex.move_to_ends_by_price(program);
    Ok(simplex)
}
