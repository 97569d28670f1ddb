ghost use Rattle.std.specs.Prelude.{◌≡◌, ◌∷◌, [], map, IfOk};
ghost use Rattle.route_tasks.specs.Fit.{TaskFits};
ghost use Rattle.route_tasks.specs.Places.{customers};
ghost use Rattle.route_tasks.specs.ModelOf.{arcs_of, mapped_of, graph_of, model_of};

use crate::graphs::{arcs, graph, maps};
use crate::places::customer_count;
use crate::rows::{rows, vars};
use crate::task::RouteTask;
use path_graph::{Graph, List, NoMemory};
use route_model::{BuildFault, Model};
use std::alloc::Global;

/// One item, as a list.
fn alone<T: Drop>(alloc: Global, item: T) -> Result<List<T>, NoMemory>
    ensures { IfOk result (λ list. list ≡ item ∷ []) }
{
    let mut list = List::new(alloc);
    list.push(item)?;
    Ok(list)
}

/// The model of a task: it has a variable for each pair of places, a row for each customer, and a graph of all places.
///
/// Its only error is want of memory.
pub fn build_model(alloc: Global, task: &RouteTask) -> Result<Model, NoMemory>
    requires { TaskFits task.now }
    ensures { IfOk result (λ model. model ≡ model_of task.now) }
{
    let n = customer_count(task);
    let vars = vars(alloc, task)?;
    let rows = rows(alloc, n)?;
    let arcs = arcs(alloc, task)?;
    let maps = alone(alloc, maps(alloc, task, arcs.as_slice())?)?;
    let graphs = alone(alloc, graph(alloc, task, arcs.as_slice())?)?;
    match Model::build(alloc, vars, rows, n as u16, graphs, maps) {
        Ok(model) => Ok(model),
        Err(BuildFault::CostRange) => unreachable!(),
        Err(BuildFault::Memory) => Err(NoMemory),
    }
}
