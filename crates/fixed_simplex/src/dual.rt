//! The dual phase (Lemke 1954): it drives values into their spans and keeps the reduced costs at 0 or above.

ghost use Rattle.std.specs.Prelude.{◌≡◌, ◌+◌, ◌<◌, ◌≤◌, IsTrue};

use crate::basis::{Basic, Region, Simplex};
use crate::pivot::Exchange;
use crate::program::{LinearProgram, Member};
use crate::ratio::Ratios;
use crate::values::VALUE_SLACK;
use fixed_point::{INVERSE_UNIT, inverse_quotient, magnitude, number_at, product, squared_length};
use path_graph::NoMemory;
use std::alloc::Global;

/// The least pivot.
const LEAST_PIVOT: i64 = INVERSE_UNIT >> 10;
/// Turns between two refreshes.
const REFRESH: usize = 64;
/// A distance from a span beyond this counts as this.
const LONGEST_DISTANCE: i64 = 1 << 50;
/// More rows than these count as these in the number of turns of a phase.
const MOST_ROWS: usize = 1_000;

/// A basic variable outside its span.
#[derive(Clone, Copy)]
struct Leaving {
    place: usize,
    value: i64,
    /// The end that it goes to.
    target: i64,
    score: i128,
}

/// The lists that turns overwrite. They are made once for a phase.
#[derive(Drop)]
struct DualLists {
    ratios: Ratios,
    /// The column of the entering variable as the basis sees it.
    image: Vec<i64>,
}

impl Leaving {
    /// Whether the value has to rise.
    fn rises(self) -> bool {
        self.value < self.target
    }
}

/// The squared distance from a span over a squared length.
fn score_of(distance: i64, length: i128) -> i128 {
    let scaled = distance.min(LONGEST_DISTANCE).saturating_mul(256);
    product(scaled, scaled).checked_div(length).unwrap_or(0)
}

/// The end that a value outside its span goes to.
fn nearest_end(program: &LinearProgram, basic: Basic) -> Option<i64> {
    let span = program.span(basic.member);
    if let Some(end) = span.ceiling
        && basic.value > end.saturating_add(VALUE_SLACK)
    {
        return Some(end);
    }
    match span.floor {
        Some(end) if basic.value < end.saturating_sub(VALUE_SLACK) => Some(end),
        _ => None,
    }
}

/// The pivot by which the leaving variable goes to its end.
fn exchange_for(leaving: Leaving, entering: Member, image: &[i64]) -> Exchange {
    let distance = leaving.value.saturating_sub(leaving.target);
    Exchange {
        entering,
        place: leaving.place,
        step: inverse_quotient(distance, number_at(image, leaving.place)),
        region: Region::Within,
        at_ceiling: !leaving.rises(),
    }
}

impl Simplex {
    /// The basic variable that is farthest outside its span by the length of its row of the inverse: dual steepest edge
    /// (Forrest and Goldfarb 1992), with lengths that are computed anew.
    fn leaving(&self, program: &LinearProgram) -> Option<Leaving> {
        let mut best: Option<Leaving> = None;
        for (place, basic) in self.basics.iter().enumerate() {
            if let Some(target) = nearest_end(program, *basic) {
                let distance = magnitude(basic.value.saturating_sub(target));
                let score = score_of(distance, squared_length(self.inverse.row(place)));
                if best.is_none_or(|other| other.score < score) {
                    best = Some(Leaving {
                        place,
                        value: basic.value,
                        target,
                        score,
                    });
                }
            }
        }
        best
    }

    /// One turn in which a variable leaves. Whether one could enter.
    fn dual_turn(
        &mut self,
        program: &LinearProgram,
        leaving: Leaving,
        lists: &mut DualLists,
        turns: &mut u32,
    ) -> bool
        requires { 0 < turns.old }
        ensures paid { IsTrue result → turns.new + 1 ≡ turns.old }
        ensures kept { turns.new ≤ turns.old }
    {
        let row = self.inverse.row(leaving.place);
        self.find_ratios(program, row, leaving.rises(), &mut lists.ratios);
        let Some(entering) = lists.ratios.best() else {
            return false;
        };
        self.fill_image(program, entering, lists.image.as_mut_slice());
        let image = lists.image.as_slice();
        if magnitude(number_at(image, leaving.place)) < LEAST_PIVOT {
            self.is_inexact = true;
            *turns -= 1;
            return true;
        }
        let turn = exchange_for(leaving, entering, image);
        self.exchange(program, image, turn, turns);
        true
    }

    /// Takes turns until all values are within their spans. Where that fails, the regions say which are not. A turn
    /// takes no memory.
    pub fn dual_phase(
        &mut self,
        alloc: Global,
        program: &LinearProgram,
        turns: &mut u32,
    ) -> Result<(), NoMemory>
        ensures { turns.new ≤ turns.old }
    {
        let mut lists = DualLists {
            ratios: Ratios::new(alloc, program)?,
            image: vec![in alloc; 0i64; self.basics.len()]?,
        };
        self.forget_regions();
        self.find_values(program);
        self.find_prices(program);
        for count in 0..program.spans.len().min(MOST_ROWS) * 3 + 60 {
            let Some(leaving) = self.leaving(program) else {
                return Ok(());
            };
            if *turns == 0 || !self.dual_turn(program, leaving, &mut lists, turns) {
                break;
            }
            if self.is_inexact || count % REFRESH == REFRESH - 1 {
                self.refresh(alloc, program, false)?;
            }
        }
        self.find_regions(program);
        self.find_prices(program);
        Ok(())
    }
}
