//! The nodes of a tree, one after the other.

ghost use Rattle.std.specs.Prelude.{◌≡◌, ◌<◌, ◌||◌, ◌≢◌, ℕ, true, false, [], All, IfSome, IsSomeAnd, IfOk, MatchOption, Some, length, map, slice_index};
ghost use Rattle.path_graph.specs.Parts.{arcs_from};
ghost use Rattle.path_graph.specs.SetBits.{has_set};
ghost use Rattle.ng_sets.specs.Memory.{is_visited};
ghost use Rattle.label_rules.specs.Labels.{Forward as Ahead};
ghost use Rattle.label_rules.specs.Spaces.{extension, is_label};
ghost use Rattle.proof_rules.specs.PrefixTrees.{IsTree};
ghost use Rattle.route_labels.specs.Fit.{FieldFits, PartsAgree};
ghost use Rattle.route_labels.specs.Meaning.{setting_of};
ghost use Rattle.cert_rules.specs.Meaning.{step_of};
ghost use Rattle.list_check.specs.Lines.{AreDifferent};
ghost use Rattle.list_check.specs.Nodes.{GoesFrom, IsNext, IsNextNode, IsNode, IsTreeOf, StepGoes};

use certificate::Step;
use label_space::Space;
use path_graph::{Graph, NoMemory, SetBits};
use route_labels::{Field, Forward, Label};
use std::alloc::Global;

/// What is kept of a node: the label of its prefix, and the packing sets that the prefix visits.
#[derive(Clone, Copy)]
pub(crate) struct Node {
    pub label: Label,
    pub visited: SetBits,
}

/// The node of the prefix without arcs.
fn first_node(field: &Field) -> Node
    requires { FieldFits field.now }
    ensures node { IsNode (setting_of field.now) [] 0 result }
    ensures agree { PartsAgree field.now }
{
    Node {
        label: Forward::new(*field, None).root(),
        visited: SetBits::empty(),
    }
}

/// The label over an arc out of its vertex, by the place of the arc among these.
fn label_over(field: &Field, label: &Label, place: u32) -> Option<Label>
    requires field { FieldFits field.now }
    requires label { is_label Ahead (setting_of field.now) label.now ≡ true }
    requires place { place < length (arcs_from (setting_of field.now).graph.arcs label.now.vertex) }
    ensures { result ≡ extension Ahead (setting_of field.now) None label.now
        (slice_index (arcs_from (setting_of field.now).graph.arcs label.now.vertex) place) }
{
    Forward::new(*field, None).extend(label, place)
}

/// The sets that are visited after a vertex: none where its set is visited already.
fn visited_after(visited: &SetBits, set: Option<u16>) -> Option<SetBits>
    requires { IfSome set (λ s. s < 512) }
    ensures { MatchOption result (IsSomeAnd set (λ s. has_set visited.now s ≡ true))
        (λ more. IfSome set (λ s. has_set visited.now s ≡ false)
        × ((t : ℕ) → has_set more t ≡ (has_set visited.now t || is_visited set t))) }
{
    match set {
        None => Some(*visited),
        Some(s) => {
            if visited.has(s) {
                return None;
            }
            Some(visited.with(s))
        }
    }
}

/// The node over an arc out of its vertex, by the place of the arc among these: none exactly where the arc does not go on.
pub(crate) fn node_over(field: &Field, node: &Node, place: u32) -> Option<Node>
    requires field { FieldFits field.now }
    requires label { is_label Ahead (setting_of field.now) node.now.label ≡ true }
    requires place { place < length (arcs_from (setting_of field.now).graph.arcs node.now.label.vertex) }
    ensures { MatchOption result
        (¬ (GoesFrom (setting_of field.now) node.now (slice_index (arcs_from (setting_of field.now).graph.arcs node.now.label.vertex) place)))
        (IsNext (setting_of field.now) node.now (slice_index (arcs_from (setting_of field.now).graph.arcs node.now.label.vertex) place)) }
{
    match label_over(field, &node.label, place) {
        None => None,
        Some(label) => node_with(field, node, place, label),
    }
}

/// The same node, where this is its label: none exactly where its set is visited already.
fn node_with(field: &Field, node: &Node, place: u32, label: Label) -> Option<Node>
    requires field { FieldFits field.now }
    requires place { place < length (arcs_from (setting_of field.now).graph.arcs node.now.label.vertex) }
    requires label { Some label ≡ extension Ahead (setting_of field.now) None node.now.label
        (slice_index (arcs_from (setting_of field.now).graph.arcs node.now.label.vertex) place) }
    ensures { MatchOption result
        (¬ (GoesFrom (setting_of field.now) node.now (slice_index (arcs_from (setting_of field.now).graph.arcs node.now.label.vertex) place)))
        (IsNext (setting_of field.now) node.now (slice_index (arcs_from (setting_of field.now).graph.arcs node.now.label.vertex) place)) }
{
    let set = field.path_graph().vertex(label.vertex).set;
    match visited_after(&node.visited, set) {
        None => None,
        Some(visited) => Some(Node { label, visited }),
    }
}

/// The place of an arc among those out of a vertex, if it is one of them.
fn place_of(graph: &Graph, vertex: u32, arc: u32) -> Option<u32>
    requires { vertex < length graph.now.vertices }
    ensures { MatchOption result ((k : ℕ) → k < length (arcs_from graph.now.arcs vertex) → slice_index (arcs_from graph.now.arcs vertex) k ≢ arc)
        (λ place. (place < length (arcs_from graph.now.arcs vertex)) × (slice_index (arcs_from graph.now.arcs vertex) place ≡ arc)) }
{
    for place in 0..graph.out_count(vertex) {
        if graph.out_arc(vertex, place) == arc {
            return Some(place);
        }
    }
    None
}

/// The node that a step makes: none exactly where it does not go on from one of the nodes.
fn next_node(field: &Field, nodes: &[Node], step: &Step) -> Option<Node>
    requires field { FieldFits field.now }
    requires labels { All (λ node. is_label Ahead (setting_of field.now) node.label ≡ true) nodes.now }
    ensures { MatchOption result (¬ (StepGoes (setting_of field.now) nodes.now (step_of step.now)))
        (IsNextNode (setting_of field.now) nodes.now (step_of step.now)) }
{
    let parent = step.parent as usize;
    if parent >= nodes.len() {
        return None;
    }
    next_of(field, &nodes[parent], step.arc)
}

/// The node over an arc: none exactly where the arc does not go on from the node.
fn next_of(field: &Field, node: &Node, arc: u32) -> Option<Node>
    requires field { FieldFits field.now }
    requires label { is_label Ahead (setting_of field.now) node.now.label ≡ true }
    ensures { MatchOption result (¬ (GoesFrom (setting_of field.now) node.now arc)) (IsNext (setting_of field.now) node.now arc) }
{
    match place_of(field.path_graph(), node.label.vertex, arc) {
        None => None,
        Some(place) => node_over(field, node, place),
    }
}

/// The nodes of steps no two of which are equal: none exactly where the steps are no tree.
///
/// The time is that of the steps, each with the arcs out of its parent's vertex.
pub(crate) fn tree_nodes(
    alloc: Global,
    field: &Field,
    steps: &[Step],
) -> Result<Option<Vec<Node>>, NoMemory>
    requires field { FieldFits field.now }
    requires different { AreDifferent (map step_of steps.now) }
    ensures { IfOk result (λ found. MatchOption found (¬ (IsTree (setting_of field.now) (map step_of steps.now)))
        (λ nodes. IsTreeOf (setting_of field.now) (map step_of steps.now) nodes.items)) }
{
    let mut nodes = vec![in alloc; first_node(field)]?;
    for step in steps {
        match next_node(field, nodes.as_slice(), step) {
            None => return Ok(None),
            Some(node) => nodes.push(node)?,
        }
    }
    Ok(Some(nodes))
}
