ghost use Rattle.std.specs.Prelude.{◌≡◌, ℕ, ◌<◌, ◌≤◌, ◌^◌, All, IfOk, length, map, neg_ℤ};
ghost use Rattle.path_graph.specs.Fit.{int_at};
ghost use Rattle.path_graph.specs.Within.{IsWithin};
ghost use Rattle.path_graph.specs.First.{EachBelow};
ghost use Rattle.route_model.specs.Fit.{MapFits};
ghost use Rattle.path_graph.specs.Sums.{sum_over};

use path_graph::{List, NoMemory};
use route_model::wide::plus;
use std::alloc::Global;

/// The reduced cost of each arc of each graph: that of the units of the variables that it maps.
pub(crate) fn arc_costs(
    alloc: Global,
    units: &[i128],
    maps: &[List<List<u32>>],
) -> Result<List<List<i128>>, NoMemory>
    requires fits { All (All (MapFits (length units.now))) maps.now }
    requires small { EachBelow (length units.now) (λ j. IsWithin (2 ^ 102) (int_at units.now j)) }
    ensures { IfOk result (λ costs. costs ≡ map (map (sum_over (int_at units.now))) maps.now) }
{
    let mut costs = Vec::new(alloc);
    for arcs in maps {
        costs.push(graph_costs(alloc, units, arcs.as_slice())?)?;
    }
    Ok(List::from_vec(costs))
}

/// The same of the arcs of one graph.
fn graph_costs(alloc: Global, units: &[i128], arcs: &[List<u32>]) -> Result<List<i128>, NoMemory>
    requires fits { All (MapFits (length units.now)) arcs.now }
    requires small { EachBelow (length units.now) (λ j. IsWithin (2 ^ 102) (int_at units.now j)) }
    ensures { IfOk result (λ costs. costs ≡ map (sum_over (int_at units.now)) arcs.now) }
{
    let mut costs = Vec::new(alloc);
    for vars in arcs {
        costs.push(unit_sum(units, vars.as_slice()))?;
    }
    Ok(List::from_vec(costs))
}

/// What a unit of each of the variables costs together.
fn unit_sum(units: &[i128], vars: &[u32]) -> i128
    requires fits { MapFits (length units.now) vars.now }
    requires small { EachBelow (length units.now) (λ j. IsWithin (2 ^ 102) (int_at units.now j)) }
    ensures { result ≡ sum_over (int_at units.now) vars.now }
{
    let mut total = 0;
    for var in vars {
        total = plus(total, units[*var as usize]);
    }
    total
}

/// The multipliers turned round.
pub(crate) fn turned(alloc: Global, mults: &[i64]) -> Result<Vec<i128>, NoMemory>
    ensures { IfOk result (λ costs. costs.items ≡ map neg_ℤ mults.now) }
{
    let costs = mults.iter().map(|mult| -i128::from(*mult)).collect(alloc)?;
    Ok(costs)
}
