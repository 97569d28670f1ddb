//! Multipliers of the quantities of a model, from those of the rows of the master.

ghost use Rattle.std.specs.Prelude.{◌≡◌, ◌+◌, ◌≤◌, [], All, IfOk, length};
ghost use Rattle.path_graph.specs.Within.{IsWithin};
ghost use Rattle.route_model.specs.declared.limits.TheConstants.{MAX_MULT};
ghost use Rattle.multipliers.specs.Ranges.{MultFits};
ghost use Rattle.column_rounds.specs.Masters.{row_count};

use path_graph::{List, NoMemory};
use route_model::{Model, Mult};
use std::alloc::Global;

/// So many of the numbers, from a place on.
fn part(alloc: Global, numbers: &[i64], from: usize, count: usize) -> Result<List<i64>, NoMemory>
    requires inside { from + count ≤ length numbers.now }
    requires each { All (IsWithin MAX_MULT) numbers.now }
    ensures count { IfOk result (λ part. length part ≡ count) }
    ensures each { IfOk result (All (IsWithin MAX_MULT)) }
{
    Ok(List::from_vec(Vec::from_slice(alloc, &numbers[from..from + count])?))
}

/// The multipliers of the variables, rows, packing sets and path counts, in this order; there is none of a cut.
pub(crate) fn mult_of(alloc: Global, model: &Model, numbers: &[i64]) -> Result<Mult, NoMemory>
    requires count { length numbers.now ≡ row_count model.now }
    requires each { All (IsWithin MAX_MULT) numbers.now }
    ensures fits { IfOk result (MultFits model.now) }
    ensures no_cuts { IfOk result (λ mult. mult.cuts ≡ []) }
{
    let vars = model.vars.len();
    let rows = model.rows.len();
    let sets = usize::from(model.sets);
    Ok(Mult {
        vars: part(alloc, numbers, 0, vars)?,
        rows: part(alloc, numbers, vars, rows)?,
        sets: part(alloc, numbers, vars + rows, sets)?,
        cuts: List::new(alloc),
        paths: part(alloc, numbers, vars + rows + sets, model.graphs.len())?,
    })
}
