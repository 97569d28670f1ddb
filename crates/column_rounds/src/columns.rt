ghost use Rattle.std.specs.Prelude.{IfOk};
ghost use Rattle.route_model.specs.Parts.{ModelParts};
ghost use Rattle.column_rounds.specs.Columns.{AreColumnsOf};

use crate::nearest::nearest;
use column_pool::Pool;
use ng_sets::Near;
use path_graph::NoMemory;
use route_model::Model;
use std::alloc::Global;

/// What column generation keeps from one place to the next: the walks that were found, the near lists with which the next
/// place begins, and of the last master the walks with a weight and the rows whose multiplier is not 0.
#[derive(Drop)]
pub struct Columns {
    pub(crate) pool: Pool,
    pub(crate) near: Near,
    pub(crate) basis: Vec<u32>,
    pub(crate) rows: Vec<u32>,
}

/// No walk yet, and near each vertex the sets that are nearest by the cost of the arcs.
pub fn begin_columns(alloc: Global, model: &Model) -> Result<Columns, NoMemory>
    ensures { IfOk result (AreColumnsOf model.now) }
{
    let pool = Pool::new(alloc, model)?;
    let near = nearest(alloc, model)?;
    Ok(Columns {
        pool,
        near,
        basis: Vec::new(alloc),
        rows: Vec::new(alloc),
    })
}

/// The walks whose weight is above 0.
pub(crate) fn basis_of(
    alloc: Global,
    numbers: &[Option<u32>],
    weights: &[i64],
) -> Result<Vec<u32>, NoMemory> {
    let mut basis = Vec::new(alloc);
    for (number, weight) in numbers.iter().zip(weights) {
        if let Some(number) = number {
            if *weight > 0 {
                basis.push(*number)?;
            }
        }
    }
    Ok(basis)
}

/// Keeps the walks with a weight and the rows whose multiplier is not 0, with which the next master begins.
pub(crate) fn keep_basis(columns: &mut Columns, basis: Vec<u32>, rows: Vec<u32>)
    ensures { (m : ModelParts) → AreColumnsOf m columns.old → AreColumnsOf m columns.new }
{
    columns.basis = basis;
    columns.rows = rows;
}
