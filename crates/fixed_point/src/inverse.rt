//! The inverse of a basis, by rows, with 36 fractional bits.

ghost use Rattle.std.specs.Prelude.{◌≡◌, length};

use crate::lists::{number_at, set_number};
use crate::numbers::{
    INVERSE_UNIT, clamped_entry, drop_inverse_bits, inverse_quotient, is_unclamped, product,
};
use crate::rows::{add_multiple, row_product};
use path_graph::NoMemory;
use std::alloc::Global;

/// The inverse of a basis of as many variables as rows. An entry is at most 2^56, so 2^20 units, in magnitude.
#[derive(Drop)]
pub struct Inverse {
    rows: Vec<Vec<i64>>,
    /// The row of the last pivot over the pivot. Each pivot overwrites it.
    pivot_row: Vec<i64>,
}

/// A row of zeros with one at a place.
fn unit_row(alloc: Global, count: usize, place: usize) -> Result<Vec<i64>, NoMemory> {
    let mut row = vec![in alloc; 0i64; count]?;
    set_number(row.as_mut_slice(), place, INVERSE_UNIT);
    Ok(row)
}

/// Makes a row zeros with one at a place.
fn reset_row(row: &mut [i64], place: usize) {
    for entry in row.iter_mut() {
        *entry = 0;
    }
    set_number(row, place, INVERSE_UNIT);
}

/// Puts the quotients of a row and its pivot into another row. Whether no entry met its limit.
fn divide_row(quotients: &mut [i64], row: &[i64], pivot: i64) -> bool {
    let mut unclamped = true;
    for (quotient, entry) in quotients.iter_mut().zip(row) {
        *quotient = clamped_entry(i128::from(inverse_quotient(*entry, pivot)));
        unclamped = unclamped && is_unclamped(*quotient);
    }
    unclamped
}

/// An entry less a multiple of another.
fn entry_difference(entry: i64, multiple: i64, other: i64) -> i64 {
    clamped_entry(i128::from(entry).saturating_sub(drop_inverse_bits(product(multiple, other))))
}

/// Subtracts a multiple of a row from another row. Whether no entry met its limit.
fn subtract_multiple(row: &mut [i64], other: &[i64], multiple: i64) -> bool {
    let mut unclamped = true;
    if multiple != 0 {
        for (entry, share) in row.iter_mut().zip(other) {
            if *share != 0 {
                *entry = entry_difference(*entry, multiple, *share);
                unclamped = unclamped && is_unclamped(*entry);
            }
        }
    }
    unclamped
}

/// Copies a row into another one.
fn copy_row(row: &mut [i64], other: &[i64]) {
    for (entry, copied) in row.iter_mut().zip(other) {
        *entry = *copied;
    }
}

/// Lets rows be those of a basis in which the variable at a place is replaced by one with this image. Whether no entry
/// met its limit.
fn eliminate(rows: &mut [Vec<i64>], pivot_row: &[i64], image: &[i64], place: usize) -> bool {
    let mut unclamped = true;
    for (at, row) in rows.iter_mut().enumerate() {
        if at == place {
            copy_row(row.as_mut_slice(), pivot_row);
        } else if !subtract_multiple(row.as_mut_slice(), pivot_row, number_at(image, at)) {
            unclamped = false;
        }
    }
    unclamped
}

impl Inverse {
    /// The inverse of the basis of logical variables, whose columns are unit columns.
    pub fn unit(alloc: Global, count: usize) -> Result<Inverse, NoMemory> {
        let mut rows = Vec::new(alloc);
        for place in 0..count {
            rows.push(unit_row(alloc, count, place)?)?;
        }
        Ok(Inverse {
            rows,
            pivot_row: vec![in alloc; 0i64; count]?,
        })
    }

    /// Goes back to the basis of logical variables. It takes no memory.
    pub fn reset(&mut self) {
        for (place, row) in self.rows.iter_mut().enumerate() {
            reset_row(row.as_mut_slice(), place);
        }
    }

    /// How many rows there are.
    pub fn count(&self) -> usize {
        self.rows.len()
    }

    /// The row at a place, and an empty one past the end.
    pub fn row(&self, place: usize) -> &[i64] {
        if place < self.rows.len() {
            self.rows[place].as_slice()
        } else {
            &[]
        }
    }

    /// Replaces the variable at a place of the basis by one with this image, the product of the inverse and its column.
    /// Whether no entry met its limit. It takes no memory.
    pub fn exchange(&mut self, image: &[i64], place: usize) -> bool {
        let pivot = number_at(image, place);
        if place >= self.rows.len() {
            return false;
        }
        let row = self.rows[place].as_slice();
        let divided = divide_row(self.pivot_row.as_mut_slice(), row, pivot);
        let pivot_row = self.pivot_row.as_slice();
        eliminate(self.rows.as_mut_slice(), pivot_row, image, place) && divided
    }

    /// Adds a multiple of the row at a place to numbers.
    pub fn add_row(&self, numbers: &mut [i64], place: usize, multiple: i64) {
        if multiple != 0 {
            add_multiple(numbers, self.row(place), multiple);
        }
    }

    /// The sum of the products of the row at a place and numbers, in the units of the numbers.
    pub fn row_product(&self, place: usize, numbers: &[i64]) -> i64 {
        row_product(self.row(place), numbers)
    }

    /// Appends a row whose logical variable joins the basis. `coefficients` has those of the variables of the basis in
    /// the new row, in units of the inverse.
    pub fn append(&mut self, alloc: Global, coefficients: &[i64]) -> Result<(), NoMemory> {
        let place = self.rows.len();
        for row in self.rows.iter_mut() {
            row.push(0)?;
        }
        let mut last = vec![in alloc; 0i64; place]?;
        last.push(INVERSE_UNIT)?;
        for (row, coefficient) in self.rows.iter().zip(coefficients) {
            subtract_multiple(last.as_mut_slice(), row.as_slice(), *coefficient);
        }
        self.rows.push(last)?;
        self.pivot_row.push(0)?;
        Ok(())
    }
}
