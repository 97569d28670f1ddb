ghost use Rattle.std.specs.Prelude.{◌≡◌, IfOk, pos, replicate};
ghost use Rattle.multipliers.specs.Ranges.{MultFits};
ghost use Rattle.made_nodes.specs.Zeros.{AreZeros};

use path_graph::{List, NoMemory};
use route_model::{Model, Mult};
use std::alloc::Global;

/// Multipliers of a model that are all 0, with none of a cut.
pub fn no_multipliers(alloc: Global, model: &Model) -> Result<Mult, NoMemory>
    ensures fits { IfOk result (MultFits model.now) }
    ensures zeros { IfOk result AreZeros }
{
    Ok(Mult {
        vars: zeros(alloc, model.vars.len())?,
        rows: zeros(alloc, model.rows.len())?,
        sets: zeros(alloc, usize::from(model.sets))?,
        cuts: List::new(alloc),
        paths: zeros(alloc, model.graphs.len())?,
    })
}

/// So many zeros.
fn zeros(alloc: Global, count: usize) -> Result<List<i64>, NoMemory>
    ensures { IfOk result (λ numbers. numbers ≡ replicate count (pos 0)) }
{
    Ok(List::from_vec(vec![in alloc; 0; count]?))
}
