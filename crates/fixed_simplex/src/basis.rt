//! The state of the search: a basis, its inverse, the values of its variables, and the prices of the rows.

use crate::program::{LinearProgram, Member, Span};
use fixed_point::{INVERSE_UNIT, Inverse, clamped, flag_at, set_flag, set_number};
use path_graph::NoMemory;
use std::alloc::Global;

/// Where a value lies by its span.
#[derive(Clone, Copy, PartialEq, Eq)]
pub enum Region {
    Below,
    Within,
    Above,
}

/// A basic variable.
#[derive(Clone, Copy)]
pub struct Basic {
    pub member: Member,
    /// Its value, with 24 fractional bits.
    pub value: i64,
    pub region: Region,
}

/// The logical of a row.
#[derive(Clone, Copy)]
pub(crate) struct Logical {
    pub(crate) is_basic: bool,
    /// Where it stands if it is not basic.
    pub(crate) at_ceiling: bool,
}

/// A basis with its inverse, the values of its variables and the prices of the rows.
#[derive(Drop)]
pub struct Simplex {
    pub(crate) basics: Vec<Basic>,
    pub(crate) inverse: Inverse,
    pub(crate) prices: Vec<i64>,
    pub(crate) logicals: Vec<Logical>,
    /// Whether each column is basic.
    pub(crate) are_basic: Vec<bool>,
    /// What the last refinement of prices or values had to make good, one number a row. Each refinement overwrites it.
    pub(crate) residuals: Vec<i64>,
    /// Whether an entry of the inverse met its limit, or no pivot was large enough.
    pub(crate) is_inexact: bool,
}

/// Where a nonbasic variable with a span stands.
fn end_of(span: Span, at_ceiling: bool) -> i64 {
    if at_ceiling {
        span.ceiling.unwrap_or(0)
    } else {
        span.floor.unwrap_or(0)
    }
}

/// A logical in the basis.
pub(crate) fn basic_logical(row: usize) -> Basic {
    Basic {
        member: Member::Logical(row),
        value: 0,
        region: Region::Within,
    }
}

impl Simplex {
    /// The basis of all logicals.
    pub fn new(alloc: Global, program: &LinearProgram) -> Result<Simplex, NoMemory> {
        let mut simplex = Simplex {
            basics: Vec::new(alloc),
            inverse: Inverse::unit(alloc, program.spans.len())?,
            prices: Vec::new(alloc),
            logicals: Vec::new(alloc),
            are_basic: vec![in alloc; false; program.columns.len()]?,
            residuals: Vec::new(alloc),
            is_inexact: false,
        };
        for row in 0..program.spans.len() {
            simplex.push_logical(program, row)?;
        }
        Ok(simplex)
    }

    /// Puts the logical of a new row into the basis, with a price of 0.
    fn push_logical(&mut self, program: &LinearProgram, row: usize) -> Result<(), NoMemory> {
        let span = program.span(Member::Logical(row));
        self.basics.push(basic_logical(row))?;
        self.prices.push(0)?;
        self.logicals.push(Logical {
            is_basic: true,
            at_ceiling: span.ceiling.is_some(),
        })?;
        self.residuals.push(0)?;
        Ok(())
    }

    /// Lets the basis grow by the logicals of the program's rows beyond those that it has.
    pub fn grow(&mut self, alloc: Global, program: &LinearProgram) -> Result<(), NoMemory> {
        let count = program.spans.len();
        let mut unit = vec![in alloc; 0i64; count]?;
        let mut coefficients = vec![in alloc; 0i64; count]?;
        for row in self.inverse.count()..count {
            set_number(unit.as_mut_slice(), row, INVERSE_UNIT);
            for (coefficient, basic) in coefficients.iter_mut().zip(self.basics.as_slice()) {
                *coefficient = clamped(program.product(unit.as_slice(), basic.member));
            }
            set_number(unit.as_mut_slice(), row, 0);
            self.inverse.append(alloc, coefficients.as_slice())?;
            self.push_logical(program, row)?;
        }
        Ok(())
    }

    /// The variables of the basis.
    pub fn basics(&self) -> &[Basic] {
        self.basics.as_slice()
    }

    /// The prices of the rows, with 30 fractional bits.
    pub fn prices(&self) -> &[i64] {
        self.prices.as_slice()
    }

    /// The basic variable at a place.
    pub(crate) fn basic(&self, place: usize) -> Option<Basic> {
        self.basics.as_slice().get(place).copied()
    }

    /// Whether the logical of a row is not basic.
    pub(crate) fn is_nonbasic(&self, row: usize) -> bool {
        row < self.logicals.len() && !self.logicals[row].is_basic
    }

    /// Whether a nonbasic logical stands at its ceiling.
    pub(crate) fn is_at_ceiling(&self, row: usize) -> bool {
        row < self.logicals.len() && self.logicals[row].at_ceiling
    }

    /// Whether a column is usable and not basic.
    pub(crate) fn column_may_enter(&self, program: &LinearProgram, place: usize) -> bool {
        program.is_usable(place) && !flag_at(self.are_basic.as_slice(), place)
    }

    /// The value of a nonbasic variable.
    pub(crate) fn nonbasic_value(&self, program: &LinearProgram, member: Member) -> i64 {
        match member {
            Member::Column(_) => 0,
            Member::Logical(row) => end_of(program.span(member), self.is_at_ceiling(row)),
        }
    }

    /// Marks a variable as basic or not.
    fn mark(&mut self, member: Member, is_basic: bool) {
        match member {
            Member::Column(place) => set_flag(self.are_basic.as_mut_slice(), place, is_basic),
            Member::Logical(row) => {
                if row < self.logicals.len() {
                    self.logicals[row].is_basic = is_basic;
                }
            }
        }
    }

    /// Lets a nonbasic logical stand at its ceiling, or at its floor.
    pub(crate) fn move_to_end(&mut self, member: Member, at_ceiling: bool) {
        if let Member::Logical(row) = member
            && row < self.logicals.len()
        {
            self.logicals[row].at_ceiling = at_ceiling;
        }
    }

    /// Puts a variable into the basis at a place.
    pub(crate) fn replace_basic(&mut self, place: usize, basic: Basic) {
        if place < self.basics.len() {
            let leaving = self.basics[place].member;
            self.basics[place] = basic;
            self.mark(leaving, false);
            self.mark(basic.member, true);
        }
    }

    /// Goes back to the basis of all logicals.
    pub(crate) fn reset(&mut self) {
        self.inverse.reset();
        self.is_inexact = false;
        for (row, basic) in self.basics.iter_mut().enumerate() {
            *basic = basic_logical(row);
        }
        for logical in self.logicals.iter_mut() {
            logical.is_basic = true;
        }
        for is_basic in self.are_basic.iter_mut() {
            *is_basic = false;
        }
    }

    /// Whether the logical of a row lies outside its span.
    pub fn has_violated_row(&self) -> bool {
        self.basics.iter().any(|basic| match basic.member {
            Member::Logical(_) => basic.region != Region::Within,
            Member::Column(_) => false,
        })
    }
}
