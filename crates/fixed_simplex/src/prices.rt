//! The prices of the rows: what the basic variables cost, by the inverse.

use crate::basis::{Basic, Region, Simplex};
use crate::program::{LinearProgram, Member};
use fixed_point::{PRICE_UNIT, clamped, magnitude, number_at, product};

/// A cost in the units of prices.
pub(crate) fn cost_as_price(cost: i64) -> i64 {
    clamped(product(cost, PRICE_UNIT))
}

/// The cost of a unit of a basic variable where it lies.
pub(crate) fn cost_where_it_lies(program: &LinearProgram, basic: Basic) -> i64 {
    let cost = program.cost(basic.member);
    match basic.region {
        Region::Below => cost.saturating_sub(program.penalty_below(basic.member)),
        Region::Within => cost,
        Region::Above => cost.saturating_add(program.penalty),
    }
}

/// The cost of a basic variable where it lies, less what prices pay for it.
fn unpaid_cost(program: &LinearProgram, prices: &[i64], basic: Basic) -> i64 {
    let paid = program.product(prices, basic.member);
    let cost = product(cost_where_it_lies(program, basic), PRICE_UNIT);
    clamped(cost.saturating_sub(paid))
}

impl Simplex {
    /// Adds a multiple of a row of the inverse to the prices.
    pub(crate) fn add_to_prices(&mut self, place: usize, multiple: i64) {
        self.inverse
            .add_row(self.prices.as_mut_slice(), place, multiple);
    }

    /// Moves the prices so that they pay for the basic variable at a place.
    pub(crate) fn pay_for(&mut self, program: &LinearProgram, place: usize, basic: Basic) {
        let unpaid = unpaid_cost(program, self.prices.as_slice(), basic);
        self.add_to_prices(place, unpaid);
    }

    /// Makes the prices anew, with one step of refinement (Wilkinson 1963). The greatest residual before that step.
    pub fn find_prices(&mut self, program: &LinearProgram) -> i64 {
        for price in self.prices.iter_mut() {
            *price = 0;
        }
        self.refine_prices(program);
        self.refine_prices(program)
    }

    /// Adds to the prices what they don't pay. The greatest such amount.
    fn refine_prices(&mut self, program: &LinearProgram) -> i64 {
        let mut greatest = 0;
        for (residual, basic) in self.residuals.iter_mut().zip(self.basics.as_slice()) {
            *residual = unpaid_cost(program, self.prices.as_slice(), *basic);
            greatest = magnitude(*residual).max(greatest);
        }
        for (place, residual) in self.residuals.iter().enumerate() {
            self.inverse
                .add_row(self.prices.as_mut_slice(), place, *residual);
        }
        greatest
    }

    /// Lets each nonbasic logical stand at the end that its price asks for: the ceiling where the price is not
    /// negative.
    pub fn move_to_ends_by_price(&mut self, program: &LinearProgram) {
        for (row, span) in program.spans.iter().enumerate() {
            let has_floor = span.floor.is_some();
            let has_ceiling = span.ceiling.is_some();
            let pays = number_at(self.prices.as_slice(), row) >= 0;
            if self.is_nonbasic(row) {
                self.move_to_end(Member::Logical(row), has_ceiling && (!has_floor || pays));
            }
        }
    }
}
