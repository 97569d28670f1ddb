ghost use Rattle.std.specs.Prelude.{◌≡◌, ℕ, ◌<◌, ◌≤◌, All, length, map, IfOk, List};
ghost use Rattle.route_model.specs.Quantities.{cost_of};
ghost use Rattle.route_model.specs.Solution.{IsSolution};
ghost use Rattle.route_tasks.specs.Fit.{TaskFits};
ghost use Rattle.route_tasks.specs.Places.{place_at, customers};
ghost use Rattle.route_tasks.specs.ModelOf.{arcs_of, model_of};
ghost use Rattle.route_tasks.specs.Routes.{visited, routes_along, routes_in, numbers_along, numbers_of, IsNumberedPlan};

use crate::graphs::arcs;
use crate::places::{customer_count, place};
use crate::task::RouteTask;
use path_graph::{GraphArc, List, NoMemory};
use route_model::{Plan, Taken};
use std::alloc::Global;

/// The number of the node at a place.
fn number_at(task: &RouteTask, v: u32) -> u32
    requires { TaskFits task.now }
    ensures { result ≡ (place_at task.now v).number }
{
    let stop = place(task, v);
    stop.number
}

/// The numbers of the customers that a walk visits, in order.
fn route(
    alloc: Global,
    task: &RouteTask,
    arcs: &[GraphArc],
    walk: &[u32],
) -> Result<List<u32>, NoMemory>
    requires fits { TaskFits task.now }
    requires arcs_of_task { arcs.now ≡ arcs_of task.now }
    requires known { All (λ a. a < length arcs.now) walk.now }
    ensures { IfOk result (λ numbers. numbers ≡ numbers_along task.now (visited task.now walk.now)) }
{
    let mut numbers = List::new(alloc);
    for a in walk {
        let head = arcs[*a as usize].head;
        if head <= customer_count(task) {
            numbers.push(number_at(task, head))?;
        }
    }
    Ok(numbers)
}

/// The routes of paths.
fn routes(
    alloc: Global,
    task: &RouteTask,
    arcs: &[GraphArc],
    paths: &[Taken],
) -> Result<List<List<u32>>, NoMemory>
    requires fits { TaskFits task.now }
    requires arcs_of_task { arcs.now ≡ arcs_of task.now }
    requires known { All (λ t. All (λ a. a < length arcs.now) t.arcs) paths.now }
    ensures { IfOk result (λ routes. routes ≡ numbers_of task.now (routes_along task.now paths.now)) }
{
    let mut routes = List::new(alloc);
    for taken in paths {
        routes.push(route(alloc, task, arcs, taken.arcs.as_slice())?)?;
    }
    Ok(routes)
}

/// The numbers of the customers of a solution, path by path.
///
/// They are a route plan that costs what the solution does. In a solution each customer is visited once, so each path is
/// taken once.
pub fn routes_of(alloc: Global, task: &RouteTask, plan: &Plan) -> Result<List<List<u32>>, NoMemory>
    requires fits { TaskFits task.now }
    requires solution { IsSolution (model_of task.now) plan.now }
    ensures numbers { IfOk result (λ routes. routes ≡ numbers_of task.now (routes_in task.now plan.now)) }
    ensures plan { IfOk result (IsNumberedPlan task.now (cost_of (model_of task.now) plan.now)) }
{
    let arcs = arcs(alloc, task)?;
    routes(alloc, task, arcs.as_slice(), plan.paths.as_slice())
}
