//! Linear programs: rows with spans, sparse columns with costs.

use fixed_point::{PRICE_UNIT, Term, clamped, number_at, product, sparse_product, subtract_column};

/// How many times the penalty of a row a unit of a column below 0 costs.
const COLUMN_PENALTIES: i64 = 4;

/// Where a variable costs no penalty.
#[derive(Clone, Copy)]
pub struct Span {
    pub floor: Option<i64>,
    pub ceiling: Option<i64>,
}

impl Span {
    /// Whether floor and ceiling are one number.
    pub(crate) fn is_point(self) -> bool {
        self.floor.is_some() && self.floor == self.ceiling
    }
}

/// A column with its cost for a value of 1.
#[derive(Drop)]
pub struct SparseColumn {
    pub cost: i64,
    /// Whether it is used at all.
    pub is_usable: bool,
    pub terms: Vec<Term>,
}

/// A variable: a column, or the logical of a row, by number.
#[derive(Clone, Copy, PartialEq, Eq)]
pub enum Member {
    Column(usize),
    Logical(usize),
}

/// The columns of least cost that are not negative and keep each row's span. The logical variable of a row is the sum
/// of the row over the columns, negated.
#[derive(Drop)]
pub struct LinearProgram {
    /// For each row, the span of its logical.
    pub spans: Vec<Span>,
    pub columns: Vec<SparseColumn>,
    /// The cost of a unit of a logical outside its span. A column below 0 costs four times as much.
    pub penalty: i64,
}

impl LinearProgram {
    /// The cost of a unit of a variable within its span.
    pub(crate) fn cost(&self, member: Member) -> i64 {
        match member {
            Member::Column(place) if place < self.columns.len() => self.columns[place].cost,
            _ => 0,
        }
    }

    /// The penalty of a unit of a variable below its span.
    pub(crate) fn penalty_below(&self, member: Member) -> i64 {
        match member {
            Member::Column(_) => self.penalty.saturating_mul(COLUMN_PENALTIES),
            Member::Logical(_) => self.penalty,
        }
    }

    /// Where a variable costs no penalty.
    pub(crate) fn span(&self, member: Member) -> Span {
        match member {
            Member::Logical(row) if row < self.spans.len() => self.spans[row],
            _ => Span {
                floor: Some(0),
                ceiling: None,
            },
        }
    }

    /// The coefficients of a column in the rows.
    pub(crate) fn terms(&self, place: usize) -> &[Term] {
        if place < self.columns.len() {
            self.columns[place].terms.as_slice()
        } else {
            &[]
        }
    }

    /// The sum of the products of a row of numbers and a variable's coefficients.
    pub(crate) fn product(&self, row: &[i64], member: Member) -> i128 {
        match member {
            Member::Column(place) => sparse_product(row, self.terms(place)),
            Member::Logical(place) => i128::from(number_at(row, place)),
        }
    }

    /// Subtracts a variable of this value from numbers by row.
    pub(crate) fn subtract(&self, numbers: &mut [i64], member: Member, value: i64) {
        match member {
            Member::Column(place) => subtract_column(numbers, self.terms(place), value),
            Member::Logical(row) => subtract_column(numbers, &[Term { row, value: 1 }], value),
        }
    }

    /// The cost of a variable less what prices pay for it.
    pub(crate) fn reduced_cost(&self, prices: &[i64], member: Member) -> i64 {
        let cost = product(self.cost(member), PRICE_UNIT);
        clamped(cost.saturating_sub(self.product(prices, member)))
    }

    /// Whether there is a column of this number that is used.
    pub fn is_usable(&self, place: usize) -> bool {
        place < self.columns.len() && self.columns[place].is_usable
    }
}
