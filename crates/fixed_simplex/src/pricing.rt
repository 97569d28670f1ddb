//! Which variable enters in the primal phase: the best logical, or the best of a short list of columns (Dantzig 1953).

use crate::basis::Simplex;
use crate::buffer::Buffer;
use crate::prices::cost_as_price;
use crate::program::{LinearProgram, Member};
use fixed_point::{PRICE_UNIT, number_at};
use path_graph::NoMemory;
use std::alloc::Global;

/// A reduced cost nearer to 0 is taken as 0.
const TOLERANCE: i64 = PRICE_UNIT >> 18;
/// How many columns are kept as candidates.
const CANDIDATES: usize = 24;
/// The length of a column without coefficients, in quarters of a coefficient.
const LENGTH_OF_NONE: i64 = 16;
/// More coefficients than these count as these in the length of a column.
const MOST_TERMS: usize = 1_000_000;

/// A variable that may enter, with the cost of a unit of its move, which is below 0.
#[derive(Clone, Copy)]
pub(crate) struct Entering {
    pub(crate) member: Member,
    pub(crate) rises: bool,
    pub(crate) rate: i64,
    score: i64,
}

/// A column that may enter.
#[derive(Clone, Copy)]
struct Candidate {
    column: usize,
    score: i64,
}

/// The columns that were best when they were found, the best first.
#[derive(Drop)]
pub(crate) struct Candidates {
    list: Buffer<Candidate>,
}

impl Candidates {
    /// No candidates.
    pub(crate) fn new(alloc: Global) -> Result<Candidates, NoMemory> {
        let filler = Candidate {
            column: 0,
            score: 0,
        };
        Ok(Candidates {
            list: Buffer::new(alloc, filler, CANDIDATES)?,
        })
    }

    /// Keeps a column in its place by score, and drops the last one where there are too many.
    fn insert(&mut self, candidate: Candidate) {
        let mut shifted = candidate;
        for kept in self.list.as_mut_slice() {
            if shifted.score < kept.score {
                let worse = *kept;
                *kept = shifted;
                shifted = worse;
            }
        }
        self.list.push(shifted);
    }
}

/// A rate over the length of a column.
fn score_of(rate: i64, terms: usize) -> i64 {
    let length = LENGTH_OF_NONE + 4 * (terms.min(MOST_TERMS) as i64);
    rate.saturating_mul(16) / length
}

/// The one of less score.
fn better(best: Option<Entering>, other: Entering) -> Option<Entering> {
    match best {
        Some(entering) if entering.score <= other.score => best,
        _ => Some(other),
    }
}

impl Simplex {
    /// The variable to enter: the best logical or candidate, or else the best column of all.
    pub(crate) fn entering(
        &self,
        program: &LinearProgram,
        candidates: &mut Candidates,
    ) -> Option<Entering> {
        let logical = self.best_logical(program);
        let column = self.best_candidate(program, candidates);
        match (logical, column) {
            (Some(_), None) => logical,
            (None, Some(_)) => column,
            (Some(one), Some(other)) => {
                if one.rate <= other.rate {
                    logical
                } else {
                    column
                }
            }
            (None, None) => {
                self.find_candidates(program, candidates);
                self.best_candidate(program, candidates)
            }
        }
    }

    /// The logical that is best to move, if any.
    fn best_logical(&self, program: &LinearProgram) -> Option<Entering> {
        let mut best = None;
        for row in 0..program.spans.len() {
            if self.is_nonbasic(row)
                && let Some(entering) = self.logical_move(program, row)
            {
                best = better(best, entering);
            }
        }
        best
    }

    /// The move of a nonbasic logical that lowers the cost, if there is one. It may move into its span and, for a
    /// penalty, out of it.
    fn logical_move(&self, program: &LinearProgram, row: usize) -> Option<Entering> {
        let member = Member::Logical(row);
        let is_point = program.span(member).is_point();
        let at_ceiling = self.is_at_ceiling(row);
        let price = number_at(self.prices.as_slice(), row);
        let penalty = cost_as_price(program.penalty);
        let above = if is_point || at_ceiling { penalty } else { 0 };
        let below = if is_point || !at_ceiling { penalty } else { 0 };
        let up = above.saturating_sub(price);
        let down = below.saturating_add(price);
        let rate = up.min(down);
        if rate < -TOLERANCE {
            Some(Entering {
                member,
                rises: up <= down,
                rate,
                score: rate,
            })
        } else {
            None
        }
    }

    /// A column that may enter, if its reduced cost is below 0.
    fn column_move(&self, program: &LinearProgram, place: usize) -> Option<Entering> {
        if !self.column_may_enter(program, place) {
            return None;
        }
        let member = Member::Column(place);
        let rate = program.reduced_cost(self.prices.as_slice(), member);
        if rate < -TOLERANCE {
            Some(Entering {
                member,
                rises: true,
                rate,
                score: score_of(rate, program.terms(place).len()),
            })
        } else {
            None
        }
    }

    /// The best of the candidates.
    fn best_candidate(&self, program: &LinearProgram, candidates: &Candidates) -> Option<Entering> {
        let mut best = None;
        for candidate in candidates.list.as_slice() {
            if let Some(entering) = self.column_move(program, candidate.column) {
                best = better(best, entering);
            }
        }
        best
    }

    /// Finds the columns that are best to enter.
    fn find_candidates(&self, program: &LinearProgram, candidates: &mut Candidates) {
        candidates.list.clear();
        for column in 0..program.columns.len() {
            if let Some(entering) = self.column_move(program, column) {
                candidates.insert(Candidate {
                    column,
                    score: entering.score,
                });
            }
        }
    }
}
