//! Single joins, and walks cut at each of their arcs. A line `join` has a forward label, an arc, a backward label, and the
//! cost or none; a line `walk` has arcs and the cost at which its parts join, wherever it is cut.

ghost use Rattle.std.specs.Prelude.{◌≡◌, ◌↔◌, ◌<◌, ◌^◌, All, IsTrue, length};
ghost use Rattle.path_graph.specs.Within.{IsWithin};
ghost use Rattle.concatenate.specs.Fit.{MayJoin};
ghost use Rattle.route_labels.specs.Fit.{FieldFits};
ghost use Rattle.route_labels.specs.Meaning.{setting_of};

use crate::labels::{cost_or_none, cut_line, label_of};
use concatenate::join_cost;
use label_space::Space;
use path_graph::Graph;
use route_labels::{Backward, Field, Forward, Label};
use std::alloc::Global;
use std::process::Abort;
use std::test::Fail;
use test_models::blocks::numbers;

/// Whether a label may be joined.
fn may_join(field: Field, label: &Label) -> bool
    requires { FieldFits field }
    ensures { IsTrue result → MayJoin (setting_of field.entry) label.now }
{
    let space = Forward::new(field, None);
    if !space.fits(label) {
        return false;
    }
    is_near(label.cost)
}

fn is_near(cost: i128) -> bool
    ensures { IsTrue result ↔ IsWithin (2 ^ 112) cost }
{
    -(1 << 112) <= cost && cost <= 1 << 112
}

/// Whether all labels of a list may.
pub fn may_all_join(field: Field, labels: &[Label]) -> bool
    requires { FieldFits field }
    ensures { IsTrue result → All (MayJoin (setting_of field.entry)) labels.now }
{
    for label in labels {
        if !may_join(field, label) {
            return false;
        }
    }
    true
}

/// The cost of a join, where the labels stand at the ends of the arc.
fn join_over(field: Field, front: &Label, arc: u32, rest: &Label) -> Result<Option<i128>, Fail>
    requires { FieldFits field }
{
    let graph = field.path_graph();
    if arc >= graph.arc_count() || !may_join(field, front) || !may_join(field, rest) {
        return Err(Fail::new("no arc, or labels out of range"));
    }
    let ends = graph.arc(arc);
    if ends.tail != front.vertex || ends.head != rest.vertex {
        return Err(Fail::new("labels that don't stand at the arc"));
    }
    Ok(join_cost(&field, front, arc, rest))
}

/// One join.
fn check_join<R: Abort>(rt: &R, field: Field, line: &str) -> Result<(), Fail>
    requires { FieldFits field }
{
    let ends = field.path_graph().ends();
    let (front, rest) = cut_line(line)?;
    let (arc, rest) = cut_line(rest)?;
    let (rest, expected) = cut_line(rest)?;
    let (front, rest) = (label_of(&ends, front)?, label_of(&ends, rest)?);
    let cost = join_over(field, &front, arc.parse::<u32>()?, &rest)?;
    assert_eq!(rt; cost, cost_or_none(expected)?, "{line}");
    Ok(())
}

/// The extension of a label over the arc of this number, in the order of the choices.
fn extended<S: Space<Label = Label>>(space: &S, label: &Label, choice: u32) -> Result<Label, Fail> {
    if !space.fits(label) || choice >= space.degree(label) {
        return Err(Fail::new("no label of the space, or no choice of it"));
    }
    Ok(space.extend(label, choice).ok_or("a walk that is refused")?)
}

/// The place of an arc among those out of, or into, a vertex.
fn choice_of(graph: &Graph, vertex: u32, arc: u32, forward: bool) -> Result<u32, Fail> {
    if vertex >= graph.vertex_count() {
        return Err(Fail::new("an unknown vertex"));
    }
    let count = if forward {
        graph.out_count(vertex)
    } else {
        graph.in_count(vertex)
    };
    for k in 0..count {
        let found = if forward {
            graph.out_arc(vertex, k)
        } else {
            graph.in_arc(vertex, k)
        };
        if found == arc {
            return Ok(k);
        }
    }
    Err(Fail::new("an arc that is not at the vertex"))
}

/// The label of arcs from the source.
fn front_of(field: Field, arcs: &[u32]) -> Result<Label, Fail>
    requires { FieldFits field }
{
    let space = Forward::new(field, None);
    let graph = field.path_graph();
    let mut label = space.root();
    for arc in arcs {
        label = extended(&space, &label, choice_of(graph, label.vertex, *arc, true)?)?;
    }
    Ok(label)
}

/// The label of arcs to the sink.
fn rest_of(field: Field, arcs: &[u32]) -> Result<Label, Fail>
    requires { FieldFits field }
{
    let space = Backward::new(field, None);
    let graph = field.path_graph();
    let mut label = space.root();
    for arc in arcs.iter().rev() {
        label = extended(&space, &label, choice_of(graph, label.vertex, *arc, false)?)?;
    }
    Ok(label)
}

/// A walk, cut at each of its arcs.
fn check_walk<R: Abort>(rt: &R, alloc: Global, field: Field, line: &str) -> Result<(), Fail>
    requires { FieldFits field }
{
    let (arcs, expected) = cut_line(line)?;
    let expected = cost_or_none(expected)?;
    let arcs = numbers(alloc, arcs)?;
    let arcs = arcs.as_slice();
    for i in 0..arcs.len() {
        let front = front_of(field, &arcs[..i])?;
        let rest = rest_of(field, &arcs[i + 1..])?;
        let cost = join_over(field, &front, arcs[i], &rest)?;
        assert_eq!(rt; cost, expected, "arc {i} of {line}");
    }
    assert_eq!(rt; Some(front_of(field, arcs)?.cost), expected, "{line}");
    Ok(())
}

/// All of a row.
pub fn check_joins<R: Abort>(rt: &R, alloc: Global, field: Field, said: &str) -> Result<(), Fail>
    requires { FieldFits field }
{
    for line in said.lines() {
        if let Some(rest) = line.strip_prefix("join ") {
            check_join(rt, field, rest)?;
        } else if let Some(rest) = line.strip_prefix("walk ") {
            check_walk(rt, alloc, field, rest)?;
        }
    }
    Ok(())
}
