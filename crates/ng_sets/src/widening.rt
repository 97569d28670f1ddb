ghost use Rattle.std.specs.Prelude.{◌≡◌, ◌<◌, not, length, All, IfSome, Some, slice_index_or};
ghost use Rattle.path_graph.specs.declared.limits.TheConstants.{MAX_SETS};
ghost use Rattle.path_graph.specs.SetBits.{has_set, IsWith};
ghost use Rattle.path_graph.specs.Walk.{IsFeasibleWalk, IsGraph};
ghost use Rattle.ng_sets.specs.Near.{near_at, HasShape, IsVertex, KeepsOthers};
ghost use Rattle.ng_sets.specs.Returns.{AreThere, IsReturnIn, IsFoundIn};
ghost use Rattle.ng_sets.specs.Widening.{
  AreWidened,
  ComesBack,
  FitsGraph,
  HasNoneBefore,
  IsFirstReturn,
  IsRefusedAlong,
  IsWidening,
  VisitsTwice,
  count_below,
  has_grown,
  set_entered,
  set_visited,
  visited,
};

use crate::near::Near;
use path_graph::{Graph, SetBits};

/// The first visit of a walk to a set that it visited before.
#[derive(Clone, Copy, Debug)]
struct Return {
    to: usize,
    set: u16,
}

/// Widens near lists by a walk that visits some packing set twice, so that the walk has no label any more; answers how many
/// lists grew.
///
/// The set is the first to which the walk comes back. It is put near each vertex that the walk visits strictly between the two
/// visits: so the memory keeps it there, and the second visit is refused. `graph` is the graph with number `g` among those that
/// the lists were made for.
///
/// Lists that grow where relaxed walks repeat sets are those of dynamic ng-route relaxations (Roberti and Mingozzi 2014).
pub fn widen(near: &mut Near, graph: &Graph, g: u32, arcs: &[u32]) -> u32
    requires lists { FitsGraph near.old g graph.now }
    requires walk { IsFeasibleWalk graph.now arcs.now }
    requires twice { VisitsTwice graph.now arcs.now }
    ensures widened { IsWidening graph.now g arcs.now near.old near.new result }
    ensures refused { IsRefusedAlong near.new graph.now g arcs.now }
{
    match first_return(graph, arcs) {
        None => 0,
        Some(found) => {
            let from = visit_before(graph, arcs, found);
            widen_between(near, graph, g, arcs, from, found)
        }
    }
}

/// The packing set that an arc enters.
fn set_of(graph: &Graph, arc: u32) -> Option<u16>
    requires { arc < length graph.now.arcs }
    ensures set { result ≡ set_entered graph.now arc }
    ensures fits { IfSome result (λ s. s < MAX_SETS) }
{
    graph.vertex(graph.arc(arc).head).set
}

/// The vertex of a visit, by its place.
fn vertex_of(graph: &Graph, arcs: &[u32], m: usize) -> u32
    requires there { AreThere graph.now arcs.now }
    requires place { m < length arcs.now }
    ensures vertex { result ≡ visited graph.now arcs.now m }
    ensures inside { result < length graph.now.vertices }
    ensures graph { IsGraph graph.now }
{
    graph.arc(arcs[m]).head
}

/// The first visit to a set that was visited before.
fn first_return(graph: &Graph, arcs: &[u32]) -> Option<Return>
    requires { AreThere graph.now arcs.now }
    ensures { IsFoundIn graph.now arcs.now result }
{
    let mut seen = SetBits::empty();
    for (to, arc) in arcs.iter().enumerate() {
        if let Some(set) = set_of(graph, *arc) {
            if seen.has(set) {
                return Some(Return { to, set });
            }
            seen = seen.with(set);
        }
    }
    None
}

/// The visit to the same set before a return.
fn visit_before(graph: &Graph, arcs: &[u32], found: Return) -> usize
    requires there { AreThere graph.now arcs.now }
    requires found { IsReturnIn graph.now arcs.now found }
    ensures { IsFirstReturn graph.now arcs.now result found.to found.set }
{
    for from in 0..found.to {
        if set_of(graph, arcs[from]) == Some(found.set) {
            return from;
        }
    }
    0
}

/// Puts a set near a vertex; answers whether it was not near it.
fn put_near(near: &mut Near, g: u32, v: u32, set: u16) -> bool
    requires vertex { IsVertex near.old g v }
    requires set { set < MAX_SETS }
    ensures near { IsWith (near_at near.old g v) set (near_at near.new g v) }
    ensures grew { result ≡ not (has_set (near_at near.old g v) set) }
    ensures others { KeepsOthers near.old near.new g v }
    ensures shape { HasShape near.old near.new }
{
    let sets = near.at(g, v);
    if sets.has(set) {
        return false;
    }
    near.put(g, v, sets.with(set));
    true
}

/// Puts the set near each vertex between the two visits; answers how many lists grew.
fn widen_between(
    near: &mut Near,
    graph: &Graph,
    g: u32,
    arcs: &[u32],
    from: usize,
    found: Return,
) -> u32
    requires lists { FitsGraph near.old g graph.now }
    requires there { AreThere graph.now arcs.now }
    requires back { IsFirstReturn graph.now arcs.now from found.to found.set }
    ensures lists { AreWidened graph.now g arcs.now from found.to found.set near.old near.new }
    ensures count { result ≡ count_below (length graph.now.vertices) (has_grown near.old near.new g found.set) }
{
    let mut grown = 0;
    for m in from + 1..found.to {
        if put_near(near, g, vertex_of(graph, arcs, m), found.set) {
            grown += 1;
        }
    }
    grown
}
