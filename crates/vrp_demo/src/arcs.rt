ghost use Rattle.std.specs.Prelude.{◌≡◌, ◌≤◌, ◌<◌, ◌++◌, All, length, map, IfOk, OnOk};
ghost use Rattle.vrp_demo.specs.Arcs.{is_arc, pairs_from, all_pairs, stop_in, distance, arc_over, variable_over, AreIn};

use crate::stops::Stop;
use path_graph::{GraphArc, List, NoMemory};
use route_model::Var;
use std::alloc::Global;

/// The two vertices of an arc.
#[derive(Clone, Copy)]
pub(crate) struct Pair {
    pub(crate) tail: u32,
    pub(crate) head: u32,
}

/// Whether an arc goes from the one vertex to the other.
///
/// None goes from a vertex to itself, or from the source to the sink.
fn is_arc(size: u32, tail: u32, head: u32) -> bool
    requires { size ≤ 100 }
    ensures { result ≡ is_arc size tail head }
{
    tail != head && (tail != 0 || head != size + 1)
}

/// Appends the arcs out of a vertex.
fn push_pairs(pairs: &mut List<Pair>, size: u32, tail: u32) -> Result<(), NoMemory>
    requires { size ≤ 100 }
    ensures { OnOk result (pairs.new ≡ pairs.old ++ pairs_from size tail) }
{
    for head in 1..size + 2 {
        if is_arc(size, tail, head) {
            pairs.push(Pair { tail, head })?;
        }
    }
    Ok(())
}

/// The two vertices of each arc, by tail, then by head.
pub(crate) fn pairs_of(alloc: Global, size: u32) -> Result<List<Pair>, NoMemory>
    requires { size ≤ 100 }
    ensures { IfOk result (λ them. them ≡ all_pairs size) }
{
    let mut pairs = List::new(alloc);
    for tail in 0..size + 1 {
        push_pairs(&mut pairs, size, tail)?;
    }
    Ok(pairs)
}

/// How far two stops are apart: the difference of X plus that of Y.
fn distance(from: &Stop, to: &Stop) -> i64
    ensures { result ≡ distance from.now to.now }
{
    i64::from(from.x.abs_diff(to.x)) + i64::from(from.y.abs_diff(to.y))
}

/// The arc of two vertices. It consumes the demand of its head.
fn arc_over(stops: &[Stop], pair: &Pair) -> GraphArc
    requires { AreIn stops.now pair.now }
    ensures { result ≡ arc_over stops.now pair.now }
{
    let demand = i32::from(stops[pair.head as usize].demand);
    GraphArc {
        tail: pair.tail,
        head: pair.head,
        needs: [demand, 0, 0, 0, 0, 0],
    }
}

/// The arcs of a list of pairs.
pub(crate) fn arcs_over(
    alloc: Global,
    stops: &[Stop],
    pairs: &[Pair],
) -> Result<List<GraphArc>, NoMemory>
    requires { All (AreIn stops.now) pairs.now }
    ensures { IfOk result (λ arcs. arcs ≡ map (arc_over stops.now) pairs.now) }
{
    let mut arcs = List::new(alloc);
    for pair in pairs {
        arcs.push(arc_over(stops, pair))?;
    }
    Ok(arcs)
}

/// The variable of an arc: whether it is used, at the cost of its length.
fn variable_over(stops: &[Stop], pair: &Pair) -> Var
    requires { AreIn stops.now pair.now }
    ensures { result ≡ variable_over stops.now pair.now }
{
    let cost = distance(&stops[pair.tail as usize], &stops[pair.head as usize]);
    Var {
        low: 0,
        high: 1,
        cost,
    }
}

/// The variables of a list of pairs.
pub(crate) fn variables_over(
    alloc: Global,
    stops: &[Stop],
    pairs: &[Pair],
) -> Result<List<Var>, NoMemory>
    requires { All (AreIn stops.now) pairs.now }
    ensures { IfOk result (λ vars. vars ≡ map (variable_over stops.now) pairs.now) }
{
    let mut vars = List::new(alloc);
    for pair in pairs {
        vars.push(variable_over(stops, pair))?;
    }
    Ok(vars)
}
