//! The sets near each vertex, and the memory after a visit.

ghost use Rattle.std.specs.Prelude.{◌≡◌, IfOk, length};
ghost use Rattle.ng_sets.specs.Near.{IsVertex};

use ng_sets::{Near, visit};
use path_graph::{Ends, Graph, SetBits, Vertex, Window, parts_fit};
use std::alloc::Global;
use std::test::Fail;

const POINT: Window = Window { low: 0, high: 0 };

const PLAIN: Vertex = Vertex {
    set: None,
    windows: [POINT, POINT, POINT, POINT, POINT, POINT],
};

const ENDS: Ends = Ends {
    source: 0,
    sink: 1,
    low: 0,
    high: 1,
    mains: 1,
    seconds: 0,
};

/// A graph of these vertices and no arcs.
fn graph_of(alloc: Global, vertices: &[Vertex]) -> Result<Graph, Fail>
    ensures { IfOk result (λ g. length g.vertices ≡ length vertices.now) }
{
    if !parts_fit(&ENDS, vertices, &[]) {
        return Err(Fail::from("the parts don't fit"));
    }
    Ok(Graph::new(alloc, ENDS, vertices, &[])?)
}

/// For a graph of two vertices and one of three.
fn near_two(alloc: Global) -> Result<Near, Fail>
    ensures { IfOk result (λ near. IsVertex near 0 1 × IsVertex near 1 2) }
{
    let graphs = [
        graph_of(alloc, &[PLAIN, PLAIN])?,
        graph_of(alloc, &[PLAIN, PLAIN, PLAIN])?,
    ];
    Ok(Near::new(alloc, &graphs)?)
}

#[test]
#[tactic(auto, using(ng_sets::proofs::NearLemmas::vertex_kept))]
fn lists(rt: HostRuntime) -> Result<(), Fail> {
    let none = SetBits::empty();
    let some = none.with(3).with(300);
    let mut near = near_two(rt.alloc())?;
    assert_eq!(rt; near.at(1, 2), none, "none at first");
    near.put(1, 2, some);
    let before = near.copy(rt.alloc())?;
    near.put(0, 1, none.with(7));
    assert_eq!(rt; near.at(1, 2), some, "what was put stays");
    assert_eq!(rt; near.at(0, 1), none.with(7), "what was put last");
    assert_eq!(rt; before.at(0, 1), none, "a copy stays");
    assert_eq!(rt; before.at(1, 2), some, "a copy is equal");
    Ok(())
}

#[test]
fn visits(rt: HostRuntime) -> Result<(), Fail> {
    let memory = SetBits::empty().with(0).with(2);
    let near = SetBits::empty().with(0).with(1);
    assert_eq!(rt;
        visit(&memory, &near, Some(1)),
        Some(near),
        "the set is added, and 2 forgotten"
    );
    assert_eq!(rt;
        visit(&memory, &near, Some(2)),
        None,
        "the set is remembered"
    );
    assert_eq!(rt;
        visit(&memory, &near, None),
        Some(SetBits::empty().with(0)),
        "no set"
    );
    assert_eq!(rt;
        visit(&memory, &near, Some(511)),
        Some(SetBits::empty().with(0).with(511)),
        "the last set"
    );
    Ok(())
}
