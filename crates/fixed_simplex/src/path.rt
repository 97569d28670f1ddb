//! The break points of a move in the primal phase: where the cost of a further unit rises (Fourer 1985).

use crate::basis::{Basic, Region, Simplex};
use crate::buffer::Buffer;
use crate::pricing::Entering;
use crate::program::{LinearProgram, Member, Span};
use fixed_point::{INVERSE_UNIT, clamped, inverse_quotient, magnitude, number_at, product};
use path_graph::NoMemory;
use std::alloc::Global;

/// The least pivot.
const LEAST_PIVOT: i64 = INVERSE_UNIT >> 10;
/// Break points this near to one another count as one: 2^-20 units.
const TIE: i64 = 16;
/// Fractional bits of a jump.
const JUMP_UNIT: i64 = 256;

/// An end of its span that a basic variable reaches.
#[derive(Clone, Copy)]
struct End {
    /// How far its value is from there.
    distance: i64,
    at_ceiling: bool,
    /// Where it lies behind it.
    region: Region,
}

/// A step at which a basic variable reaches an end of its span, or the entering logical its other end.
#[derive(Clone, Copy)]
pub(crate) struct BreakPoint {
    pub(crate) step: i64,
    /// By how much the cost of a unit of the move rises there.
    jump: i64,
    /// The place of the basic variable, and none for the entering logical.
    pub(crate) place: Option<usize>,
    /// Where the variable lies behind it.
    pub(crate) region: Region,
    pub(crate) at_ceiling: bool,
    /// How many points were found before.
    number: usize,
}

/// The break points of a move, by step.
#[derive(Drop)]
pub(crate) struct Path {
    points: Buffer<BreakPoint>,
}

/// A penalty times a pivot, in units of 1/256.
fn jump_of(penalty: i64, share: i64) -> i64 {
    clamped(product(penalty, magnitude(share)) >> 28)
}

/// The ceiling, where a value that falls, or rises, reaches it.
fn ceiling_ahead(basic: Basic, span: Span, falls: bool) -> Option<End> {
    let ceiling = span.ceiling?;
    if (basic.region == Region::Above) != falls {
        return None;
    }
    let above = basic.value.saturating_sub(ceiling);
    Some(End {
        distance: if falls { above } else { above.saturating_neg() },
        at_ceiling: true,
        region: if falls { Region::Within } else { Region::Above },
    })
}

/// The floor, where a value that falls, or rises, reaches it.
fn floor_ahead(basic: Basic, span: Span, falls: bool) -> Option<End> {
    let floor = span.floor?;
    if (basic.region == Region::Below) == falls {
        return None;
    }
    let above = basic.value.saturating_sub(floor);
    Some(End {
        distance: if falls { above } else { above.saturating_neg() },
        at_ceiling: false,
        region: if falls { Region::Below } else { Region::Within },
    })
}

impl Path {
    /// A list with room for the points of a basis of this many variables.
    pub(crate) fn new(alloc: Global, basics: usize) -> Result<Path, NoMemory> {
        let filler = BreakPoint {
            step: 0,
            jump: 0,
            place: None,
            region: Region::Within,
            at_ceiling: false,
            number: 0,
        };
        let room = basics.saturating_mul(2).saturating_add(1);
        Ok(Path {
            points: Buffer::new(alloc, filler, room)?,
        })
    }

    /// Adds a point, and numbers it.
    fn push(&mut self, point: BreakPoint) {
        let number = self.points.len();
        self.points.push(BreakPoint { number, ..point });
    }

    /// Adds the point at which the basic variable at a place, with this share of the move, reaches an end.
    fn push_end(
        &mut self,
        program: &LinearProgram,
        member: Member,
        place: usize,
        share: i64,
        end: End,
    ) {
        let penalty = if end.at_ceiling {
            program.penalty
        } else {
            program.penalty_below(member)
        };
        self.push(BreakPoint {
            step: inverse_quotient(end.distance.max(0), magnitude(share)),
            jump: jump_of(penalty, share),
            place: Some(place),
            region: end.region,
            at_ceiling: end.at_ceiling,
            number: 0,
        });
    }

    /// Adds the points of the basic variable at a place with this share of the move.
    fn push_basic(
        &mut self,
        program: &LinearProgram,
        basic: Basic,
        place: usize,
        share: i64,
        falls: bool,
    ) {
        let span = program.span(basic.member);
        let ceiling = ceiling_ahead(basic, span, falls);
        let floor = floor_ahead(basic, span, falls);
        let (first, second) = if falls {
            (ceiling, floor)
        } else {
            (floor, ceiling)
        };
        if let Some(end) = first {
            self.push_end(program, basic.member, place, share, end);
        }
        if let Some(end) = second {
            self.push_end(program, basic.member, place, share, end);
        }
    }

    /// Sorts the points by step, those of one step in the order in which they were found.
    fn sort(&mut self) {
        self.points
            .as_mut_slice()
            .sort_unstable_by_key(|point| (point.step, point.number));
    }

    /// The point at a place.
    pub(crate) fn point(&self, place: usize) -> Option<BreakPoint> {
        self.points.at(place)
    }

    /// The place of the point from which on the cost no longer falls. `rate` is the cost of a unit of the move, in units
    /// of 1/256.
    fn first_rise(&self, rate: i64) -> usize {
        let mut slope = rate;
        for (place, point) in self.points.as_slice().iter().enumerate() {
            slope = slope.saturating_add(point.jump);
            if slope >= 0 {
                return place;
            }
        }
        self.points.len().saturating_sub(1)
    }

    /// The place of the point at which the move is to end: where the cost no longer falls, or a point near that with
    /// more than twice its pivot.
    pub(crate) fn end_of_move(&self, entering: Entering, image: &[i64]) -> usize {
        let first = self.first_rise(entering.rate >> 22);
        let Some(chosen) = self.point(first) else {
            return first;
        };
        let mut best = first;
        let mut greatest = pivot_of(chosen, image).saturating_mul(2);
        for (place, point) in self.points.as_slice().iter().enumerate() {
            let is_near = magnitude(point.step.saturating_sub(chosen.step)) <= TIE;
            if is_near && pivot_of(*point, image) > greatest {
                best = place;
                greatest = pivot_of(*point, image);
            }
        }
        best
    }
}

/// The pivot at a point. The move of a logical to its other end has the greatest.
fn pivot_of(point: BreakPoint, image: &[i64]) -> i64 {
    match point.place {
        Some(place) => magnitude(number_at(image, place)),
        None => i64::MAX,
    }
}

impl Simplex {
    /// Finds the break points of a move of the variable with this image.
    pub(crate) fn find_path(
        &self,
        program: &LinearProgram,
        entering: Entering,
        image: &[i64],
        path: &mut Path,
    ) {
        path.points.clear();
        for (place, basic) in self.basics.iter().enumerate() {
            let share = number_at(image, place);
            if magnitude(share) >= LEAST_PIVOT {
                let falls = (share > 0) == entering.rises;
                path.push_basic(program, *basic, place, share, falls);
            }
        }
        if let Some(point) = self.other_end(program, entering) {
            path.push(point);
        }
        path.sort();
    }

    /// The other end of an entering logical that moves into its span.
    fn other_end(&self, program: &LinearProgram, entering: Entering) -> Option<BreakPoint> {
        let Member::Logical(row) = entering.member else {
            return None;
        };
        if self.is_at_ceiling(row) == entering.rises {
            return None;
        }
        let span = program.span(entering.member);
        let floor = span.floor?;
        let ceiling = span.ceiling?;
        Some(BreakPoint {
            step: ceiling.saturating_sub(floor),
            jump: program.penalty.saturating_mul(JUMP_UNIT),
            place: None,
            region: Region::Within,
            at_ceiling: entering.rises,
            number: 0,
        })
    }
}
