//! Seating columns in a basis of logicals: the start from a basis that is known, and the inverse made anew.

use crate::basis::{Basic, Region, Simplex};
use crate::program::{LinearProgram, Member};
use fixed_point::{INVERSE_UNIT, PRICE_UNIT, flag_at, magnitude, number_at, set_flag};
use path_graph::NoMemory;
use std::alloc::Global;

/// The least pivot with which a column is seated.
const LEAST_SEAT: i64 = INVERSE_UNIT / 64;
/// A residual of the prices beyond which the inverse is made anew.
const WORST_RESIDUAL: i64 = PRICE_UNIT / 256;

impl Simplex {
    /// Seats columns in order, each on the row with the greatest pivot among those whose logical may leave.
    pub fn seat(
        &mut self,
        alloc: Global,
        program: &LinearProgram,
        columns: &[usize],
        may_leave: &[bool],
    ) -> Result<(), NoMemory> {
        let mut image = vec![in alloc; 0i64; self.basics.len()]?;
        for column in columns {
            let member = Member::Column(*column);
            self.fill_image(program, member, image.as_mut_slice());
            if let Some(place) = self.seat_place(image.as_slice(), may_leave) {
                let basic = Basic {
                    member,
                    value: 0,
                    region: Region::Within,
                };
                self.enter(image.as_slice(), place, basic);
            }
        }
        Ok(())
    }

    /// The place of the greatest pivot that is large enough.
    fn seat_place(&self, image: &[i64], may_leave: &[bool]) -> Option<usize> {
        let mut best = None;
        let mut greatest = LEAST_SEAT;
        for (place, basic) in self.basics.iter().enumerate() {
            let pivot = magnitude(number_at(image, place));
            if let Member::Logical(row) = basic.member
                && flag_at(may_leave, row)
                && pivot >= greatest
            {
                best = Some(place);
                greatest = pivot;
            }
        }
        best
    }

    /// The columns of the basis.
    fn basic_columns(&self, alloc: Global) -> Result<Vec<usize>, NoMemory> {
        let mut columns = Vec::new(alloc);
        for basic in self.basics.iter() {
            if let Member::Column(column) = basic.member {
                columns.push(column)?;
            }
        }
        Ok(columns)
    }

    /// Makes the inverse anew from the columns of the basis, and then the values.
    fn rebuild(&mut self, alloc: Global, program: &LinearProgram) -> Result<(), NoMemory> {
        let columns = self.basic_columns(alloc)?;
        let mut may_leave = vec![in alloc; false; self.basics.len()]?;
        for row in 0..self.basics.len() {
            set_flag(may_leave.as_mut_slice(), row, self.is_nonbasic(row));
        }
        self.reset();
        self.seat(alloc, program, columns.as_slice(), may_leave.as_slice())?;
        self.find_values(program);
        Ok(())
    }

    /// Makes prices and values anew, and the inverse where it is off. `has_penalties` says that values outside their
    /// spans pay for it.
    pub(crate) fn refresh(
        &mut self,
        alloc: Global,
        program: &LinearProgram,
        has_penalties: bool,
    ) -> Result<(), NoMemory> {
        let residual = self.find_prices(program);
        self.find_values(program);
        if self.is_inexact || residual > WORST_RESIDUAL {
            self.rebuild(alloc, program)?;
            if has_penalties {
                self.find_regions(program);
            }
            self.find_prices(program);
        }
        Ok(())
    }
}
