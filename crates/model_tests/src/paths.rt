//! Graphs: cycles without main consumption, ranks, arcs at vertices, values along walks and rests, and joins.

ghost use Rattle.std.specs.Prelude.{IfSome, ◌<◌, length};
ghost use Rattle.path_graph.specs.Fit.{vertex_at};
ghost use Rattle.path_graph.specs.Within.{AreWithin};

use path_graph::{
    Ends, Graph, GraphArc, GraphFault, Values, Vertex, Window, after, before, end_values, joins,
    level, parts_fit, root_values,
};
use std::alloc::Global;
use std::test::Fail;

/// An arc by its tail, its head and its needs of the two main resources.
type Arc = (u32, u32, i32, i32);

/// The arcs of the four-vertex graph: between the two in the middle either way, and by each of them.
const FOUR: &[Arc] = &[
    (0, 1, 1, 0),
    (0, 2, 1, 0),
    (1, 2, 1, 0),
    (2, 1, 1, 0),
    (1, 3, 0, 0),
    (2, 3, 0, 0),
];

/// The graph with so many main resources, walks from vertex 0 to vertex 3, and all windows 0..high.
fn graph(
    alloc: Global,
    mains: u8,
    count: usize,
    high: i32,
    arcs: &[Arc],
) -> Result<Result<Graph, GraphFault>, Fail> {
    let ends = Ends {
        source: 0,
        sink: 3,
        low: 0,
        high: 1,
        mains,
        seconds: 0,
    };
    let mut windows = [Window { low: 0, high: 0 }; 6];
    windows[0].high = high;
    if mains == 2 {
        windows[1].high = high;
    }
    let vertices = vec![in alloc; Vertex { set: None, windows }; count]?;
    let mut list = Vec::new(alloc);
    for (tail, head, first, second) in arcs {
        list.push(GraphArc {
            tail: *tail,
            head: *head,
            needs: [*first, *second, 0, 0, 0, 0],
        })?;
    }
    if !parts_fit(&ends, vertices.as_slice(), list.as_slice()) {
        return Err(Fail::new("the parts of a graph don't fit"));
    }
    Ok(Graph::new(alloc, ends, vertices.as_slice(), list.as_slice()))
}

/// Whether a list is another one that begins at some place of it and goes round.
fn is_rotation(list: &[u32], other: &[u32]) -> bool {
    if list.len() != other.len() {
        return false;
    }
    for start in 0..other.len() {
        let end = other.len() - start;
        if list[..end] == other[start..] && list[end..] == other[..start] {
            return true;
        }
    }
    other.is_empty()
}

#[test]
fn free_cycles(rt: HostRuntime) -> Result<(), Fail> {
    for (name, mains, count, arcs, cycle) in [
        ("all consume", 1, 4, FOUR, [].as_slice()),
        (
            "between the middle vertices",
            1,
            4,
            [
                (0, 1, 1, 0),
                (0, 2, 1, 0),
                (1, 2, 0, 0),
                (2, 1, 0, 0),
                (1, 3, 0, 0),
                (2, 3, 0, 0),
            ]
            .as_slice(),
            [2, 3].as_slice(),
        ),
        (
            "each consumes one of two",
            2,
            4,
            [(0, 1, 0, 0), (1, 2, 0, 1), (2, 1, 1, 0), (1, 3, 0, 0)].as_slice(),
            [].as_slice(),
        ),
        (
            "a loop at the last vertex",
            1,
            5,
            [(0, 3, 0, 0), (4, 4, 0, 0)].as_slice(),
            [1].as_slice(),
        ),
        (
            "free arcs that join again",
            1,
            4,
            [(0, 1, 0, 0), (0, 2, 0, 0), (1, 2, 0, 0), (2, 3, 0, 0)].as_slice(),
            [].as_slice(),
        ),
        (
            "a cycle off the way",
            1,
            6,
            [
                (0, 1, 0, 0),
                (1, 3, 0, 0),
                (2, 4, 0, 0),
                (1, 2, 1, 0),
                (4, 5, 0, 0),
                (5, 2, 0, 0),
            ]
            .as_slice(),
            [2, 4, 5].as_slice(),
        ),
    ] {
        let found = match graph(rt.alloc(), mains, count, 2, arcs)? {
            Ok(_) => {
                assert!(rt; cycle.is_empty(), "{name}");
                continue;
            }
            Err(GraphFault::FreeCycle(found)) => found,
            Err(GraphFault::Memory) => return Err(Fail::new("out of memory")),
        };
        assert!(rt; is_rotation(found.as_slice(), cycle), "{name}");
    }
    Ok(())
}

/// The rank of a vertex, where it is there.
fn rank_of(g: &Graph, vertex: u32) -> Option<u32> {
    if vertex < g.vertex_count() {
        Some(g.rank(vertex))
    } else {
        None
    }
}

/// The arcs out of a vertex.
fn arcs_out(alloc: Global, g: &Graph, vertex: u32) -> Result<Vec<u32>, Fail> {
    let mut arcs = Vec::new(alloc);
    if vertex < g.vertex_count() {
        for k in 0..g.out_count(vertex) {
            arcs.push(g.out_arc(vertex, k))?;
        }
    }
    Ok(arcs)
}

/// The arcs into a vertex.
fn arcs_into(alloc: Global, g: &Graph, vertex: u32) -> Result<Vec<u32>, Fail> {
    let mut arcs = Vec::new(alloc);
    if vertex < g.vertex_count() {
        for k in 0..g.in_count(vertex) {
            arcs.push(g.in_arc(vertex, k))?;
        }
    }
    Ok(arcs)
}

/// The level at the source.
fn source_level(g: &Graph) -> i64 {
    let value = root_values(g);
    let source = g.ends().source;
    level(g, source, &value)
}

/// The graph of four arcs, of which that from vertex 0 to vertex 2 alone consumes.
fn ranked(alloc: Global) -> Result<Graph, Fail> {
    let arcs = [(0, 1, 0, 0), (0, 2, 1, 0), (1, 2, 0, 0), (2, 3, 0, 0)];
    Ok(graph(alloc, 1, 4, 2, arcs.as_slice())??)
}

#[test]
fn ranks_and_arcs(rt: HostRuntime) -> Result<(), Fail> {
    let g = ranked(rt.alloc())?;
    for (vertex, rank, out, into) in [
        (0, 0, [0, 1].as_slice(), [].as_slice()),
        (1, 1, [2].as_slice(), [0].as_slice()),
        (2, 2, [3].as_slice(), [1, 2].as_slice()),
        (3, 3, [].as_slice(), [3].as_slice()),
    ] {
        assert_eq!(rt; rank_of(&g, vertex), Some(rank), "rank of {vertex}");
        let found = arcs_out(rt.alloc(), &g, vertex)?;
        assert_eq!(rt; found.as_slice(), out, "out of {vertex}");
        let found = arcs_into(rt.alloc(), &g, vertex)?;
        assert_eq!(rt; found.as_slice(), into, "into {vertex}");
    }
    assert_eq!(rt; source_level(&g), 0);
    Ok(())
}

/// The values over the arcs from the source, which end at the vertex.
fn forward(g: &Graph, arcs: &[u32], end: u32) -> Option<Values>
    ensures { IfSome result (AreWithin (vertex_at g.now.vertices end).windows) }
{
    let mut place = g.ends().source;
    let mut value = root_values(g);
    for a in arcs {
        if *a >= g.arc_count() || g.arc(*a).tail != place {
            return None;
        }
        value = after(g, &value, *a)?;
        place = g.arc(*a).head;
    }
    if place == end { Some(value) } else { None }
}

/// The backward values of a rest that begins at the vertex, its last arc first.
fn backward(g: &Graph, arcs: &[u32], start: u32) -> Option<Values>
    ensures { IfSome result (AreWithin (vertex_at g.now.vertices start).windows) }
{
    let mut place = g.ends().sink;
    let mut value = end_values(g);
    for a in arcs {
        if *a >= g.arc_count() || g.arc(*a).head != place {
            return None;
        }
        value = before(g, &value, *a)?;
        place = g.arc(*a).tail;
    }
    if place == start { Some(value) } else { None }
}

/// The four-vertex graph with all windows 0..high.
fn four(alloc: Global, high: i32) -> Result<Graph, Fail> {
    Ok(graph(alloc, 1, 4, high, FOUR)??)
}

/// The value of the rest, given by its last arc first, and 1 where it joins the first arcs over the arc, 0 where not.
/// What is refused is left out.
fn joined(
    alloc: Global,
    g: &Graph,
    first: &[u32],
    arc: u32,
    rest: &[u32],
) -> Result<Vec<i32>, Fail> {
    if arc >= g.arc_count() {
        return Err(Fail::new("an arc is missing"));
    }
    let mut found = Vec::new(alloc);
    let Some(back) = backward(g, rest, g.arc(arc).head) else {
        return Ok(found);
    };
    found.push(back.at[0])?;
    if let Some(front) = forward(g, first, g.arc(arc).tail) {
        found.push(i32::from(joins(g, &front, arc, &back)))?;
    }
    Ok(found)
}

#[test]
fn rests_and_joins(rt: HostRuntime) -> Result<(), Fail> {
    // The high end, the first arcs, the arc, the rest by its last arc first.
    for (name, high, first, arc, rest, expected) in [
        (
            "from the end over 5",
            2,
            [0].as_slice(),
            2,
            [5].as_slice(),
            [2, 1].as_slice(),
        ),
        (
            "from a narrow end over 4",
            1,
            [].as_slice(),
            0,
            [4].as_slice(),
            [1, 1].as_slice(),
        ),
        (
            "over 2 and 5",
            2,
            [].as_slice(),
            0,
            [5, 2].as_slice(),
            [1, 1].as_slice(),
        ),
        (
            "no room for both",
            1,
            [].as_slice(),
            0,
            [5, 2].as_slice(),
            [0, 0].as_slice(),
        ),
        (
            "a rest that is refused",
            1,
            [].as_slice(),
            1,
            [5, 2, 3].as_slice(),
            [].as_slice(),
        ),
    ] {
        let g = four(rt.alloc(), high)?;
        let found = joined(rt.alloc(), &g, first, arc, rest)?;
        assert_eq!(rt; found.as_slice(), expected, "{name}");
    }
    Ok(())
}
