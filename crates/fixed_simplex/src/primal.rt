//! The primal phase: values outside their spans pay penalties, and turns lower the cost.

ghost use Rattle.std.specs.Prelude.{◌≡◌, ◌+◌, ◌<◌, ◌≤◌, IsTrue};

use crate::basis::{Basic, Region, Simplex};
use crate::path::{BreakPoint, Path};
use crate::pivot::Exchange;
use crate::prices::{cost_as_price, cost_where_it_lies};
use crate::pricing::{Candidates, Entering};
use crate::program::{LinearProgram, Member};
use path_graph::NoMemory;
use std::alloc::Global;

/// Turns between two refreshes.
const REFRESH: u32 = 64;

/// The lists that turns overwrite. They are made once for a phase.
#[derive(Drop)]
struct PrimalLists {
    candidates: Candidates,
    /// The column of the entering variable as the basis sees it.
    image: Vec<i64>,
    path: Path,
}

impl Simplex {
    /// Lets the variables of the first points lie in the regions behind them, but for the leaving variable.
    fn pass_points(
        &mut self,
        program: &LinearProgram,
        path: &Path,
        count: usize,
        leaving: Option<usize>,
    ) {
        for number in 0..count {
            if let Some(point) = path.point(number)
                && let Some(place) = point.place
                && point.place != leaving
            {
                self.pass_point(program, place, point.region);
            }
        }
    }

    /// Lets the basic variable at a place lie in a region, and moves the prices by its change of cost.
    fn pass_point(&mut self, program: &LinearProgram, place: usize, region: Region) {
        if place < self.basics.len() {
            let before = self.basics[place];
            let after = Basic { region, ..before };
            let change = cost_where_it_lies(program, after).saturating_sub(cost_where_it_lies(
                program, before,
            ));
            self.basics[place] = after;
            self.add_to_prices(place, cost_as_price(change));
        }
    }

    /// The region of an entering variable behind the end that it leaves.
    fn entered_region(&self, program: &LinearProgram, entering: Entering) -> Region {
        let Member::Logical(row) = entering.member else {
            return Region::Within;
        };
        let is_point = program.span(entering.member).is_point();
        let at_ceiling = self.is_at_ceiling(row);
        if entering.rises && (is_point || at_ceiling) {
            Region::Above
        } else if !entering.rises && (is_point || !at_ceiling) {
            Region::Below
        } else {
            Region::Within
        }
    }

    /// Takes the move to a point, and one from the turns left.
    fn move_to_point(
        &mut self,
        program: &LinearProgram,
        entering: Entering,
        image: &[i64],
        point: BreakPoint,
        turns: &mut u32,
    )
        requires { 0 < turns.old }
        ensures { turns.new + 1 ≡ turns.old }
    {
        let step = if entering.rises {
            point.step
        } else {
            point.step.saturating_neg()
        };
        match point.place {
            Some(place) => {
                let turn = Exchange {
                    entering: entering.member,
                    place,
                    step,
                    region: self.entered_region(program, entering),
                    at_ceiling: point.at_ceiling,
                };
                self.exchange(program, image, turn, turns);
            }
            None => {
                self.move_values(image, step);
                self.move_to_end(entering.member, point.at_ceiling);
                *turns -= 1;
            }
        }
    }

    /// One turn with a variable that enters. Whether it was taken.
    fn primal_turn(
        &mut self,
        program: &LinearProgram,
        entering: Entering,
        lists: &mut PrimalLists,
        turns: &mut u32,
    ) -> bool
        requires { 0 < turns.old }
        ensures paid { IsTrue result → turns.new + 1 ≡ turns.old }
        ensures kept { turns.new ≤ turns.old }
    {
        self.fill_image(program, entering.member, lists.image.as_mut_slice());
        let image = lists.image.as_slice();
        self.find_path(program, entering, image, &mut lists.path);
        let end = lists.path.end_of_move(entering, image);
        let Some(point) = lists.path.point(end) else {
            self.is_inexact = true;
            return false;
        };
        self.pass_points(program, &lists.path, end, point.place);
        self.move_to_point(program, entering, image, point, turns);
        true
    }

    /// Takes turns until none lowers the cost. A turn takes no memory.
    pub fn primal_phase(
        &mut self,
        alloc: Global,
        program: &LinearProgram,
        turns: &mut u32,
    ) -> Result<(), NoMemory>
        ensures { turns.new ≤ turns.old }
    {
        let mut lists = PrimalLists {
            candidates: Candidates::new(alloc)?,
            image: vec![in alloc; 0i64; self.basics.len()]?,
            path: Path::new(alloc, self.basics.len())?,
        };
        let mut since = 0u32;
        for _ in 0..2 * u64::from(*turns) + 2 {
            if *turns == 0 {
                break;
            }
            let moved = match self.entering(program, &mut lists.candidates) {
                Some(entering) => self.primal_turn(program, entering, &mut lists, turns),
                None => false,
            };
            if !moved && since == 0 {
                break;
            }
            since = if moved { since.saturating_add(1) } else { 0 };
            if self.is_inexact || since % REFRESH == 0 {
                self.refresh(alloc, program, true)?;
            }
        }
        Ok(())
    }
}
