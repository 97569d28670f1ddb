//! The order of the phases: the search over the opened sides, then the end over the true ones.

ghost use Rattle.std.specs.Prelude.{◌≡◌, ◌≤◌, All, IfOk, length};
ghost use Rattle.std.specs.List.{AllZip};
ghost use Rattle.fixed_master.specs.Duals.{IsWeight, SuitsSide};

use crate::activity::add_violated;
use crate::limits::MAX_USED_COST;
use crate::parts::{Column, Duals, Input, Side};
use crate::rounding::{allowed_mults, allowed_weights, found_mults, found_weights};
use crate::start::start;
use crate::working::WorkingRows;
use fixed_point::VALUE_UNIT;
use fixed_simplex::Simplex;
use path_graph::NoMemory;
use std::alloc::Global;

/// How often violated rows are added.
const ROUNDS: u32 = 12;
/// How often violated rows are added once the sides are restored.
const LAST_ROUNDS: u32 = 4;
/// What a row may be violated by before it becomes a working one.
const FIRST_SLACK: i64 = VALUE_UNIT >> 8;
/// The same once the sides are restored.
const LAST_SLACK: i64 = VALUE_UNIT >> 14;
/// How many times dearer a violated side becomes where a working row stays violated.
const PENALTY_RISE: i64 = 16;

/// Multipliers and weights of the linear program of least cost whose rows keep their sides and whose weights are not
/// negative, by a revised simplex in fixed point (Dantzig 1953, Lemke 1954) of at most `pivots` turns. A turn is a pivot
/// or a move of a logical variable to its other side.
///
/// Multipliers are in units of 1/65,536 of a unit of cost, weights in units of 1/65,536. Any numbers are taken: a column
/// with a row out of range, an entry above `MAX_ENTRY` or a cost above `MAX_USED_COST` in magnitude has weight 0, and
/// entries of the same row add up. Where no weights keep all sides, those that are not kept cost a penalty. Nothing is
/// promised of quality: multipliers that are far from best still suit their sides, as bounds by duality ask.
///
/// The first column whose entries are all 0 is a marker: the columns before it are the last basis, and its entries name
/// the rows whose multiplier was not 0. In the answer weights above 0 show which columns are basic.
pub fn solve_master(
    alloc: Global,
    sides: &[Side],
    columns: &[Column],
    pivots: u32,
) -> Result<Duals, NoMemory>
    ensures mult { IfOk result (λ duals. AllZip SuitsSide sides.now duals.mult) }
    ensures columns { IfOk result (λ duals. length duals.weights ≡ length columns.now) }
    ensures weights { IfOk result (λ duals. All IsWeight duals.weights) }
{
    let mut turns = pivots;
    let input = Input { sides, columns };
    let mut working = WorkingRows::new(alloc, input)?;
    let mut simplex = start(alloc, input, &mut working)?;
    simplex.dual_phase(alloc, &working.program, &mut turns)?;
    search(alloc, input, &mut working, &mut simplex, &mut turns)?;
    finish(alloc, input, &mut working, &mut simplex, &mut turns)?;
    let found = found_mults(
        alloc,
        working.rows.as_slice(),
        simplex.prices(),
        sides.len(),
    )?;
    let mult = allowed_mults(alloc, sides, found.as_slice())?;
    let values = found_weights(alloc, simplex.basics(), columns.len())?;
    let weights = allowed_weights(alloc, columns.len(), values.as_slice())?;
    Ok(Duals { mult, weights })
}

/// Optimises over the opened sides, and adds violated rows.
fn search(
    alloc: Global,
    input: Input,
    working: &mut WorkingRows,
    simplex: &mut Simplex,
    turns: &mut u32,
) -> Result<(), NoMemory>
    ensures { turns.new ≤ turns.old }
{
    for _ in 0..ROUNDS {
        simplex.primal_phase(alloc, &working.program, turns)?;
        if *turns == 0 {
            break;
        }
        if add_violated(alloc, input, working, simplex, FIRST_SLACK)? {
            simplex.dual_phase(alloc, &working.program, turns)?;
        } else if simplex.has_violated_row() && working.program.penalty < MAX_USED_COST {
            let penalty = working.program.penalty.saturating_mul(PENALTY_RISE);
            working.program.penalty = penalty.min(MAX_USED_COST);
            simplex.find_prices(&working.program);
        } else {
            break;
        }
    }
    Ok(())
}

/// Restores the sides, and optimises once more.
fn finish(
    alloc: Global,
    input: Input,
    working: &mut WorkingRows,
    simplex: &mut Simplex,
    turns: &mut u32,
) -> Result<(), NoMemory>
    ensures { turns.new ≤ turns.old }
{
    for _ in 0..LAST_ROUNDS {
        working.restore_sides();
        simplex.dual_phase(alloc, &working.program, turns)?;
        simplex.primal_phase(alloc, &working.program, turns)?;
        if *turns == 0 || !add_violated(alloc, input, working, simplex, LAST_SLACK)? {
            break;
        }
    }
    simplex.find_values(&working.program);
    simplex.find_prices(&working.program);
    Ok(())
}
