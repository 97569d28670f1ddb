ghost use Rattle.std.specs.Prelude.{◌≡◌, ℕ, ◌+◌, ◌*◌, ◌<◌, ◌≤◌, ◌^◌, List, length, IfOk, OnOk, MatchResult};
ghost use Rattle.std.specs.declared.cmp.Ordering.{Ordering};
ghost use Rattle.path_graph.specs.declared.limits.TheConstants.{MAX_PATHS};
ghost use Rattle.route_model.specs.Parts.{taken_at, plan_with};
ghost use Rattle.route_model.specs.Quantities.{quantity, paths_of};
ghost use Rattle.route_model.specs.Tidy.{walk_order, IsTidy, KeepsQuantities, AreFew, AllComeFrom, KeepsWalks, IsPlaceOf, AddsPath, AllComeFromOr};

use crate::plan::{Plan, Taken};
use path_graph::{List, NoMemory};
use std::alloc::Global;
use std::cmp::Ordering;

/// The plan with equal walks merged, by graph, then by arc list.
///
/// Every quantity stays: uses of variables, sums of rows, visits, path counts, cost. Each walk that is taken at least
/// once stays; a path of count 0 may be left out. The time grows as the paths
/// times their arcs, times the logarithm of the number of paths.
pub fn tidy(alloc: Global, plan: &Plan) -> Result<Plan, NoMemory>
    requires { AreFew plan.now }
    ensures tidy { IfOk result IsTidy }
    ensures quantities { IfOk result (KeepsQuantities plan.now) }
    ensures walks { IfOk result (AllComeFrom plan.now) }
    ensures kept { IfOk result (KeepsWalks plan.now) }
{
    let mut paths = Vec::new(alloc);
    for taken in plan.paths.as_slice() {
        add_path(alloc, &mut paths, taken)?;
    }
    Ok(Plan {
        paths: List::from_vec(paths),
    })
}

/// Adds a path to a tidy plan.
fn add_path(alloc: Global, paths: &mut Vec<Taken>, taken: &Taken) -> Result<(), NoMemory>
    requires tidy { IsTidy (plan_with paths.old.items) }
    requires few { paths_of (plan_with paths.old.items) taken.now.graph + taken.now.count ≤ MAX_PATHS }
    ensures tidy { OnOk result (IsTidy (plan_with paths.new.items)) }
    ensures adds { OnOk result (AddsPath (plan_with paths.old.items) (plan_with paths.new.items) taken.now) }
    ensures walks { OnOk result (AllComeFromOr (plan_with paths.old.items) taken.now (plan_with paths.new.items)) }
{
    match place_of(paths.as_slice(), taken) {
        Ok(place) => {
            let path = &mut paths[place];
            path.count += taken.count;
        }
        Err(place) => paths.insert(place, taken.copy(alloc)?)?,
    }
    Ok(())
}

/// The place of the path with this walk in a tidy plan, or the place where one with it would stand.
fn place_of(paths: &[Taken], taken: &Taken) -> Result<usize, usize>
    requires { IsTidy (plan_with paths.now) }
    ensures { IsPlaceOf paths.now taken.now result }
{
    paths.binary_search_by(|path| compare_walks(path, taken))
}

/// How the walks of two paths stand: by graph, then by arc list.
fn compare_walks(a: &Taken, b: &Taken) -> Ordering
    ensures { result ≡ walk_order a.now b.now }
{
    a.graph
        .cmp(&b.graph)
        .then(a.arcs.as_slice().cmp(b.arcs.as_slice()))
}
