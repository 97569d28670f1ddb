//! The values of the basic variables, and where they lie by their spans.

use crate::basis::{Region, Simplex};
use crate::program::{LinearProgram, Member, Span};
use fixed_point::set_number;

/// A value less than this outside its span counts as within: 2^-18 units.
pub(crate) const VALUE_SLACK: i64 = 64;

/// The region of a value.
fn region_of(span: Span, value: i64) -> Region {
    if span
        .ceiling
        .is_some_and(|end| value > end.saturating_add(VALUE_SLACK))
    {
        Region::Above
    } else if span
        .floor
        .is_some_and(|end| value < end.saturating_sub(VALUE_SLACK))
    {
        Region::Below
    } else {
        Region::Within
    }
}

impl Simplex {
    /// Makes the values anew, with one step of refinement.
    pub fn find_values(&mut self, program: &LinearProgram) {
        for basic in self.basics.iter_mut() {
            basic.value = 0;
        }
        self.refine_values(program);
        self.refine_values(program);
    }

    /// Adds to the values what the balance of the rows lacks.
    fn refine_values(&mut self, program: &LinearProgram) {
        self.find_lacks(program);
        for (place, basic) in self.basics.iter_mut().enumerate() {
            let lack = self.inverse.row_product(place, self.residuals.as_slice());
            basic.value = basic.value.saturating_add(lack);
        }
    }

    /// What each row lacks of its balance: the sum of all variables along it, negated.
    fn find_lacks(&mut self, program: &LinearProgram) {
        for row in 0..program.spans.len() {
            let value = if self.is_nonbasic(row) {
                self.nonbasic_value(program, Member::Logical(row))
            } else {
                0
            };
            set_number(self.residuals.as_mut_slice(), row, value.saturating_neg());
        }
        for basic in self.basics.iter() {
            program.subtract(self.residuals.as_mut_slice(), basic.member, basic.value);
        }
    }

    /// Sets the region of each basic variable by its value.
    pub(crate) fn find_regions(&mut self, program: &LinearProgram) {
        for basic in self.basics.iter_mut() {
            basic.region = region_of(program.span(basic.member), basic.value);
        }
    }

    /// Takes all basic variables to be within their spans, so that they pay no penalty.
    pub(crate) fn forget_regions(&mut self) {
        for basic in self.basics.iter_mut() {
            basic.region = Region::Within;
        }
    }
}
