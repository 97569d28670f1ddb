ghost use Rattle.std.specs.Prelude.{◌≡◌, ℕ, ◌<◌, ◌≤◌, ◌-◌, ◌*◌, ◌^◌, List, All, length, count_by};
ghost use Rattle.path_graph.specs.Visits.{is_visit, visit_over, visits_along, visit_count};
ghost use Rattle.path_graph.specs.declared.limits.TheConstants.{MAX_PATHS};
ghost use Rattle.route_model.specs.Parts.{maps_in};
ghost use Rattle.route_model.specs.Quantities.{is_mapped, uses_in, visits_in, is_of, quantity, value_of, visits_of, paths_of};
ghost use Rattle.route_model.specs.Solution.{ArePaths};
ghost use Rattle.route_model.specs.Known.{AreMapped, AreArcsOf};
ghost use Rattle.route_model.specs.Verdicts.{IsCounted};

use crate::parts::Model;
use crate::plan::{Plan, Taken};
use path_graph::{Graph, List};

/// A quantity of walks, and so of a plan: the sum over its walks, each as often as it is taken.
trait WalkQuantity {
    /// The quantity of a walk, by its graph and arcs.
    ghost of_walk: { Self → ℕ → List ℕ → ℕ };

    /// The walks that it is defined for.
    ghost is_told: { Self → ℕ → List ℕ → Type 0 };

    fn of_walk(&self, graph: u32, arcs: &[u32]) -> u64
        requires { is_told self.now graph arcs.now }
        ensures { result ≡ of_walk self.now graph arcs.now };
}

/// The quantity of a plan.
fn total<Q: WalkQuantity>(kind: &Q, plan: &Plan) -> u128
    requires counted { IsCounted plan.now }
    requires told { All (λ t. Q.is_told kind.now t.graph t.arcs) plan.now.paths }
    ensures { result ≡ quantity (Q.of_walk kind.now) plan.now }
{
    let mut total = 0;
    for taken in plan.paths.as_slice() {
        total += path_quantity(kind, taken);
    }
    total
}

/// The quantity of a walk, as often as it is taken.
fn path_quantity<Q: WalkQuantity>(kind: &Q, taken: &Taken) -> u128
    requires count { taken.now.count ≤ MAX_PATHS }
    requires told { Q.is_told kind.now taken.now.graph taken.now.arcs }
    ensures quantity { result ≡ taken.now.count * Q.of_walk kind.now taken.now.graph taken.now.arcs }
    ensures bound { result ≤ 2 ^ 76 }
{
    let once = kind.of_walk(taken.graph, taken.arcs.as_slice());
    u128::from(taken.count) * u128::from(once)
}

/// How often walks use a variable.
#[derive(Clone, Copy)]
struct Uses<'a> {
    maps: &'a List<List<List<u32>>>,
    var: u32,
}

impl WalkQuantity for Uses<'_> {
    ghost of_walk = { λ q. uses_in q.maps.now q.var };

    ghost is_told = { λ q. AreMapped q.maps.now };

    fn of_walk(&self, graph: u32, arcs: &[u32]) -> u64 {
        let mut count = 0;
        for arc in arcs {
            if maps_var(self.maps, self.var, graph, *arc) {
                count += 1;
            }
        }
        count
    }
}

/// Whether an arc maps a variable.
fn maps_var(maps: &List<List<List<u32>>>, var: u32, graph: u32, arc: u32) -> bool
    requires graph { graph < length maps.now }
    requires arc { arc < length (maps_in maps.now graph) }
    ensures { result ≡ is_mapped maps.now var graph arc }
{
    let arcs = maps.at(graph as usize);
    arcs.at(arc as usize).as_slice().contains(&var)
}

/// How often walks visit a packing set.
#[derive(Clone, Copy)]
struct Visits<'a> {
    graphs: &'a List<Graph>,
    set: u16,
}

impl WalkQuantity for Visits<'_> {
    ghost of_walk = { λ q. visits_in q.graphs.now q.set };

    ghost is_told = { λ q. AreArcsOf q.graphs.now };

    fn of_walk(&self, graph: u32, arcs: &[u32]) -> u64 {
        visits_in_graph(self.graphs.at(graph as usize), self.set, arcs)
    }
}

/// How many arcs enter a packing set.
fn visits_in_graph(graph: &Graph, set: u16, arcs: &[u32]) -> u64
    requires { All (λ a. a < length graph.now.arcs) arcs.now }
    ensures { result ≡ visit_count set (visits_along graph.now arcs.now) }
{
    let mut count = 0;
    for arc in arcs {
        if enters_set(graph, set, *arc) {
            count += 1;
        }
    }
    count
}

/// Whether the head of an arc is in a packing set.
fn enters_set(graph: &Graph, set: u16, arc: u32) -> bool
    requires { arc < length graph.now.arcs }
    ensures { result ≡ is_visit set (visit_over graph.now arc) }
{
    match graph.vertex(graph.arc(arc).head).set {
        Some(other) => other == set,
        None => false,
    }
}

/// Which walks are of a graph.
#[derive(Clone, Copy)]
struct PathsOf {
    graph: u32,
}

impl WalkQuantity for PathsOf {
    ghost of_walk = { λ q. is_of q.graph };

    ghost is_told = { λ _ _ _. Unit {0} };

    fn of_walk(&self, graph: u32, _arcs: &[u32]) -> u64 {
        if graph == self.graph { 1 } else { 0 }
    }
}

/// The value of a variable.
pub fn value(model: &Model, plan: &Plan, var: u32) -> u128
    requires counted { IsCounted plan.now }
    requires paths { ArePaths model.now plan.now }
    ensures { result ≡ value_of model.now plan.now var }
{
    uses_total(&model.maps, plan, var)
}

fn uses_total(maps: &List<List<List<u32>>>, plan: &Plan, var: u32) -> u128
    requires counted { IsCounted plan.now }
    requires mapped { All (λ t. AreMapped maps.now t.graph t.arcs) plan.now.paths }
    ensures { result ≡ quantity (uses_in maps.now var) plan.now }
{
    total(&Uses { maps, var }, plan)
}

/// How often a packing set is visited.
pub fn set_visits(model: &Model, plan: &Plan, set: u16) -> u128
    requires counted { IsCounted plan.now }
    requires paths { ArePaths model.now plan.now }
    ensures { result ≡ visits_of model.now plan.now set }
{
    visits_total(&model.graphs, plan, set)
}

fn visits_total(graphs: &List<Graph>, plan: &Plan, set: u16) -> u128
    requires counted { IsCounted plan.now }
    requires arcs { All (λ t. AreArcsOf graphs.now t.graph t.arcs) plan.now.paths }
    ensures { result ≡ quantity (visits_in graphs.now set) plan.now }
{
    total(&Visits { graphs, set }, plan)
}

/// How many paths of a graph there are.
pub fn path_count(plan: &Plan, graph: u32) -> u128
    requires { IsCounted plan.now }
    ensures { result ≡ paths_of plan.now graph }
{
    total(&PathsOf { graph }, plan)
}
