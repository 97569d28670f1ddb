//! Sums over rows of numbers and over sparse columns.

ghost use Rattle.std.specs.Prelude.{◌^◌, ◌≤ℤ◌, pos};
ghost use Rattle.path_graph.specs.Within.{IsWithin};

use crate::lists::{number_at, set_number};
use crate::numbers::{clamped, clamped_sum, drop_inverse_bits, product};

/// A coefficient of a sparse column in a row.
#[derive(Clone, Copy)]
pub struct Term {
    pub row: usize,
    pub value: i64,
}

/// An entry of the inverse times a number, in the units of the number.
pub fn inverse_product(entry: i64, value: i64) -> i64
    ensures { IsWithin (2 ^ 60) result }
{
    clamped(drop_inverse_bits(product(entry, value)))
}

/// The sum of the products of a row of the inverse and numbers, in the units of the numbers.
pub(crate) fn row_product(row: &[i64], numbers: &[i64]) -> i64
    ensures { IsWithin (2 ^ 60) result }
{
    let mut sum = 0i128;
    for (entry, value) in row.iter().zip(numbers) {
        if *value != 0 {
            sum = sum.saturating_add(product(*entry, *value));
        }
    }
    clamped(drop_inverse_bits(sum))
}

/// The sum of the products of a row of numbers and the coefficients of a sparse column.
pub fn sparse_product(row: &[i64], terms: &[Term]) -> i128 {
    let mut sum = 0i128;
    for term in terms {
        sum = sum.saturating_add(product(number_at(row, term.row), term.value));
    }
    sum
}

/// Subtracts a multiple of a sparse column from numbers by row.
pub fn subtract_column(numbers: &mut [i64], terms: &[Term], multiple: i64) {
    for term in terms {
        let share = product(multiple.saturating_neg(), term.value);
        let rest = clamped_sum(number_at(numbers, term.row), share);
        set_number(numbers, term.row, rest);
    }
}

/// Adds a multiple of a row of the inverse to numbers.
pub(crate) fn add_multiple(numbers: &mut [i64], row: &[i64], multiple: i64) {
    for (number, entry) in numbers.iter_mut().zip(row) {
        if *entry != 0 {
            *number = clamped_sum(*number, i128::from(inverse_product(*entry, multiple)));
        }
    }
}

/// 1 more than the squared length of a row of the inverse, whose entries are taken with 8 fractional bits.
pub fn squared_length(row: &[i64]) -> i128 {
    let mut sum = 1i128;
    for entry in row {
        let short = *entry >> 28;
        sum = sum.saturating_add(product(short, short));
    }
    sum
}
