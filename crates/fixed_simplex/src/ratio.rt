//! The ratio test of the dual phase, in two passes (Harris 1973).

use crate::basis::Simplex;
use crate::buffer::Buffer;
use crate::program::{LinearProgram, Member};
use fixed_point::{INVERSE_UNIT, PRICE_UNIT, clamped, inverse_quotient};
use path_graph::NoMemory;
use std::alloc::Global;

/// The least share of the leaving row with which a variable may enter.
const LEAST_SHARE: i64 = INVERSE_UNIT >> 9;
/// By how much a reduced cost is loosened in the first pass.
const LOOSENING: i64 = PRICE_UNIT >> 14;

/// A variable that may enter: its share of the leaving row, above 0, and its reduced cost, not below 0.
#[derive(Clone, Copy)]
struct Ratio {
    member: Member,
    share: i64,
    cost: i64,
}

/// The variables that may enter in a turn.
#[derive(Drop)]
pub(crate) struct Ratios {
    list: Buffer<Ratio>,
}

impl Ratios {
    /// A list with room for all variables of a program.
    pub(crate) fn new(alloc: Global, program: &LinearProgram) -> Result<Ratios, NoMemory> {
        let filler = Ratio {
            member: Member::Column(0),
            share: 0,
            cost: 0,
        };
        let room = program.columns.len().saturating_add(program.spans.len());
        Ok(Ratios {
            list: Buffer::new(alloc, filler, room)?,
        })
    }

    /// The variable of the greatest share among those whose ratio is not above the least loosened one.
    pub(crate) fn best(&self) -> Option<Member> {
        let mut least = i64::MAX;
        for ratio in self.list.as_slice() {
            let loosened = ratio.cost.saturating_add(LOOSENING);
            least = inverse_quotient(loosened, ratio.share).min(least);
        }
        let mut best = None;
        let mut greatest = 0;
        for ratio in self.list.as_slice() {
            if ratio.share > greatest && inverse_quotient(ratio.cost, ratio.share) <= least {
                best = Some(ratio.member);
                greatest = ratio.share;
            }
        }
        best
    }
}

impl Simplex {
    /// Finds the variables that may enter where the one of this row of the inverse leaves, and rises or falls.
    pub(crate) fn find_ratios(
        &self,
        program: &LinearProgram,
        row: &[i64],
        rises: bool,
        ratios: &mut Ratios,
    ) {
        ratios.list.clear();
        for place in 0..program.columns.len() {
            if self.column_may_enter(program, place)
                && let Some(ratio) = self.ratio(program, row, rises, Member::Column(place))
            {
                ratios.list.push(ratio);
            }
        }
        for place in 0..program.spans.len() {
            if self.logical_may_enter(program, place)
                && let Some(ratio) = self.ratio(program, row, rises, Member::Logical(place))
            {
                ratios.list.push(ratio);
            }
        }
    }

    /// Whether a logical is not basic, and can move within its span.
    fn logical_may_enter(&self, program: &LinearProgram, row: usize) -> bool {
        self.is_nonbasic(row) && !program.span(Member::Logical(row)).is_point()
    }

    /// The ratio of a nonbasic variable, if its move brings the leaving one nearer to its span.
    fn ratio(
        &self,
        program: &LinearProgram,
        row: &[i64],
        rises: bool,
        member: Member,
    ) -> Option<Ratio> {
        let is_high = match member {
            Member::Column(_) => false,
            Member::Logical(place) => self.is_at_ceiling(place),
        };
        let product = clamped(program.product(row, member));
        let share = if rises == is_high {
            product
        } else {
            product.saturating_neg()
        };
        if share <= LEAST_SHARE {
            return None;
        }
        let cost = program.reduced_cost(self.prices.as_slice(), member);
        let paid = if is_high { cost.saturating_neg() } else { cost };
        Some(Ratio {
            member,
            share,
            cost: paid.max(0),
        })
    }
}
