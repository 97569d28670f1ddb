ghost use Rattle.std.specs.Prelude.{◌≡◌, ◌^◌, ◌≤◌, [], All, IfOk, length, slice_index_or};
ghost use Rattle.path_graph.specs.Sums.{sum_over};
ghost use Rattle.path_graph.specs.Within.{IsWithin};
ghost use Rattle.route_model.specs.Fit.{ModelFits, VarFits};
ghost use Rattle.multipliers.specs.Quantities.{scaled};
ghost use Rattle.cert_check.specs.Reads.{WalkFits};
ghost use Rattle.walk_list.specs.Walks.{walk_said, walks_said};
ghost use Rattle.count_trees.specs.Costs.{arc_cost as arc_cost_of, arcs_cost as arcs_cost_of, cost_at, walk_cost as walk_cost_of, walk_costs as walk_costs_of};

use path_graph::{List, NoMemory};
use route_model::wide::plus;
use route_model::{Model, SCALE, Var};
use std::alloc::Global;
use walk_list::ListedWalk;

/// The cost of a variable by its number; 0 past the end.
fn var_cost(vars: &[Var], j: u32) -> i128
    requires vars { All VarFits vars.now }
    ensures cost { result ≡ cost_at vars.now j }
    ensures small { IsWithin 1000000000 result }
{
    match vars.get(j as usize) {
        None => 0,
        Some(var) => i128::from(var.cost),
    }
}

/// The cost of variables together.
fn vars_cost(vars: &[Var], mapped: &[u32]) -> i128
    requires vars { All VarFits vars.now }
    requires few { length mapped.now ≤ 16 }
    ensures cost { result ≡ sum_over (cost_at vars.now) mapped.now }
    ensures small { IsWithin 16000000000 result }
{
    let mut total = 0;
    for var in mapped {
        total = plus(total, var_cost(vars, *var));
    }
    total
}

/// The variables that an arc maps; none past the end.
fn mapped_by(maps: &[List<u32>], arc: u32) -> &[u32]
    requires few { All (λ mapped. length mapped ≤ 16) maps.now }
    ensures mapped { result.now ≡ slice_index_or maps.now arc [] }
    ensures few { length result.now ≤ 16 }
{
    match maps.get(arc as usize) {
        None => &[],
        Some(mapped) => mapped.as_slice(),
    }
}

/// The cost of an arc: of the variables that it maps.
fn arc_cost(vars: &[Var], maps: &[List<u32>], arc: u32) -> i128
    requires vars { All VarFits vars.now }
    requires few { All (λ mapped. length mapped ≤ 16) maps.now }
    ensures cost { result ≡ arc_cost_of vars.now maps.now arc }
    ensures small { IsWithin 16000000000 result }
{
    vars_cost(vars, mapped_by(maps, arc))
}

/// The cost of arcs.
fn arcs_cost(vars: &[Var], maps: &[List<u32>], arcs: &[u32]) -> i128
    requires vars { All VarFits vars.now }
    requires few { All (λ mapped. length mapped ≤ 16) maps.now }
    requires few_arcs { length arcs.now ≤ 2 ^ 25 }
    ensures cost { result ≡ arcs_cost_of vars.now maps.now arcs.now }
    ensures small { IsWithin (2 ^ 60) result }
{
    let mut total = 0;
    for arc in arcs {
        total = plus(total, arc_cost(vars, maps, *arc));
    }
    total
}

/// A cost at the scale of multipliers.
fn scaled_up(cost: i128) -> i128
    requires cost { IsWithin (2 ^ 60) cost }
    ensures { result ≡ scaled cost }
{
    i128::from(SCALE) * cost
}

/// The cost of a listed walk, times 65,536.
fn walk_cost(model: &Model, walk: &ListedWalk) -> i128
    requires fits { WalkFits model.now (walk_said walk.now) }
    ensures cost { result ≡ walk_cost_of model.now (walk_said walk.now) }
{
    let maps = model.maps.at(walk.graph as usize).as_slice();
    let vars = model.vars.as_slice();
    let arcs = walk.arcs.as_slice();
    scaled_up(arcs_cost(vars, maps, arcs))
}

/// The costs of listed walks, times 65,536.
pub(crate) fn walk_costs(
    alloc: Global,
    model: &Model,
    walks: &[ListedWalk],
) -> Result<List<i128>, NoMemory>
    requires fits { All (WalkFits model.now) (walks_said walks.now) }
    ensures costs { IfOk result (λ costs. costs ≡ walk_costs_of model.now (walks_said walks.now)) }
    ensures small { IfOk result (All (IsWithin (2 ^ 88))) }
    ensures model { ModelFits model.now }
{
    let _graphs = model.graphs.len();
    let mut costs = List::new(alloc);
    for walk in walks {
        costs.push(walk_cost(model, walk))?;
    }
    Ok(costs)
}
