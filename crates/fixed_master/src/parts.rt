//! What the call takes and gives.

use path_graph::List;

/// The bounds of a row: the least and the greatest sum of value × weight over its entries. None is an open side.
#[derive(Clone, Copy, Debug)]
pub struct Side {
    pub low: Option<i64>,
    pub high: Option<i64>,
}

/// A coefficient of a column in the row of a number, counted from 0.
#[derive(Clone, Copy, Debug)]
pub struct Entry {
    pub row: u32,
    pub value: i64,
}

/// A column with its cost for a weight of 1. Entries of the same row add up.
#[derive(Debug, Drop)]
pub struct Column {
    pub cost: i64,
    pub entries: List<Entry>,
}

/// Multipliers of the rows and weights of the columns, in units of 1/65,536.
#[derive(Debug, Drop)]
pub struct Duals {
    pub mult: List<i64>,
    pub weights: List<i64>,
}

/// The rows and columns of a call.
#[derive(Clone, Copy)]
pub(crate) struct Input<'a> {
    pub(crate) sides: &'a [Side],
    pub(crate) columns: &'a [Column],
}
