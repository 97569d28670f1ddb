ghost use Rattle.std.specs.Prelude.{◌≡◌, ◌↔◌, ◌^◌, IsTrue, ℕ, ◌<◌, ◌≤◌, length, All};
ghost use Rattle.path_graph.specs.Fit.{is_used_at, WindowFits, NeedFits, WindowsFit, NeedsFit, VertexFits, ArcFits, EndsFit, PartsFit};

use crate::limits::{MAX_AMOUNT, MAX_ARCS, MAX_PATHS, MAX_SETS, MAX_VERTICES};
use crate::parts::{Ends, GraphArc, Vertex, Window};

/// Whether a position has a resource: 0 and 1 are main, 2 to 5 secondary.
pub fn is_used(ends: &Ends, place: usize) -> bool
    requires { place < 2 ^ 32 }
    ensures { result ≡ is_used_at ends.now place }
{
    if place < 2 {
        place < ends.mains as usize
    } else {
        place < 2 + ends.seconds as usize
    }
}

fn window_fits(used: bool, window: &Window) -> bool
    ensures { IsTrue result ↔ WindowFits used window.now }
{
    if used {
        window.low >= -MAX_AMOUNT && window.low <= window.high && window.high <= MAX_AMOUNT
    } else {
        window.low == 0 && window.high == 0
    }
}

fn need_fits(used: bool, main: bool, need: i32) -> bool
    ensures { IsTrue result ↔ NeedFits used main need }
{
    if !used {
        need == 0
    } else if main {
        need >= 0 && need <= MAX_AMOUNT
    } else {
        need >= -MAX_AMOUNT && need <= MAX_AMOUNT
    }
}

fn windows_fit(ends: &Ends, windows: &[Window]) -> bool
    requires { length windows.now < 2 ^ 32 }
    ensures { IsTrue result ↔ WindowsFit ends.now windows.now }
{
    for (place, window) in windows.iter().enumerate() {
        if !window_fits(is_used(ends, place), window) {
            return false;
        }
    }
    true
}

fn needs_fit(ends: &Ends, needs: &[i32]) -> bool
    requires { length needs.now < 2 ^ 32 }
    ensures { IsTrue result ↔ NeedsFit ends.now needs.now }
{
    for (place, need) in needs.iter().enumerate() {
        if !need_fits(is_used(ends, place), place < 2, *need) {
            return false;
        }
    }
    true
}

fn vertex_fits(ends: &Ends, vertex: &Vertex) -> bool
    ensures { IsTrue result ↔ VertexFits ends.now vertex.now }
{
    let set_fits = match vertex.set {
        None => true,
        Some(set) => set < MAX_SETS,
    };
    set_fits && windows_fit(ends, &vertex.windows)
}

fn arc_fits(ends: &Ends, count: usize, arc: &GraphArc) -> bool
    ensures { IsTrue result ↔ ArcFits ends.now count arc.now }
{
    (arc.tail as usize) < count
        && (arc.head as usize) < count
        && arc.head != ends.source
        && arc.tail != ends.sink
        && needs_fit(ends, &arc.needs)
}

fn ends_fit(ends: &Ends, count: usize) -> bool
    ensures { IsTrue result ↔ EndsFit ends.now count }
{
    (ends.source as usize) < count
        && (ends.sink as usize) < count
        && ends.source != ends.sink
        && ends.low <= ends.high
        && ends.high <= MAX_PATHS
        && 1 <= ends.mains
        && ends.mains <= 2
        && ends.seconds <= 4
}

fn vertices_fit(ends: &Ends, vertices: &[Vertex]) -> bool
    ensures { IsTrue result ↔ All (VertexFits ends.now) vertices.now }
{
    vertices.iter().all(|vertex| vertex_fits(ends, vertex))
}

fn arcs_fit(ends: &Ends, count: usize, arcs: &[GraphArc]) -> bool
    ensures { IsTrue result ↔ All (ArcFits ends.now count) arcs.now }
{
    arcs.iter().all(|arc| arc_fits(ends, count, arc))
}

fn counts_fit(vertices: usize, arcs: usize) -> bool
    ensures { IsTrue result ↔ ((2 ≤ vertices) × (vertices ≤ MAX_VERTICES) × (arcs ≤ MAX_ARCS)) }
{
    2 <= vertices && vertices <= MAX_VERTICES && arcs <= MAX_ARCS
}

/// Whether a graph can be made of the parts.
pub fn parts_fit(ends: &Ends, vertices: &[Vertex], arcs: &[GraphArc]) -> bool
    ensures { IsTrue result ↔ PartsFit ends.now vertices.now arcs.now }
{
    if !counts_fit(vertices.len(), arcs.len()) {
        return false;
    }
    if !ends_fit(ends, vertices.len()) {
        return false;
    }
    let source = vertices[ends.source as usize];
    let sink = vertices[ends.sink as usize];
    if source.set.is_some() || sink.set.is_some() {
        return false;
    }
    if !vertices_fit(ends, vertices) {
        return false;
    }
    arcs_fit(ends, vertices.len(), arcs)
}
