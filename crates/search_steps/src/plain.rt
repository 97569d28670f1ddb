ghost use Rattle.std.specs.Prelude.{◌≡◌, ◌≤◌, ◌≤ℤ◌, All, IfOk, None};
ghost use Rattle.route_model.specs.Costs.{cost_above_all, least_box_cost};
ghost use Rattle.route_model.specs.Places.{root_place};
ghost use Rattle.certificate.specs.declared.limits.TheConstants.{MAX_LABELS};
ghost use Rattle.proof_rules.specs.OpenTrees.{valued_root};
ghost use Rattle.place_nodes.specs.Worked.{IsNodeAt, IsWorked};
ghost use Rattle.search_tree.specs.Places.{IsOpenIn, valued};
ghost use Rattle.search_steps.specs.Steps.{IsPlain};
ghost use Rattle.search_steps.specs.Told.{IsGrownAtLast, IsListedRoot, IsPlainTree, IsRootNode, IsToldAs};
ghost use Rattle.search_steps.specs.Told.{IsTreeBelowRoot};
ghost use Rattle.search_steps.specs.Trees.{IsGrownBelow};

use crate::counts::counts_tree;
use crate::node_trees::{on_top, one_node};
use certificate::NodeForm;
use made_nodes::MadeNode;
use path_graph::NoMemory;
use place_nodes::{LabelWall, Worked, work_place};
use route_model::{Model, Plan};
use search_tree::{Grown, OpenItem, OpenPlace};
use std::alloc::Global;

/// What comes of the plain tree.
#[derive(Drop)]
pub enum Plain {
    Whole(Grown),
    Left(i64, Option<Plan>),
    Memory,
}

/// A tree, if nothing is open.
fn told(tree: Result<Grown, NoMemory>) -> Plain
    ensures { IsToldAs tree result }
{
    match tree {
        Err(_) => Plain::Memory,
        Ok(grown) => {
            if grown.rest.is_empty() {
                Plain::Whole(grown)
            } else {
                Plain::Left(grown.z, grown.best)
            }
        }
    }
}

/// The tree over the counts that a node of listed walks opens.
fn tree_below(
    alloc: Global,
    model: &Model,
    place: &OpenPlace,
    z: i64,
    budget: usize,
) -> Result<Grown, NoMemory>
    requires place { IsOpenIn model.now place.now }
    ensures { IfOk result (IsGrownBelow model.now (valued place.now) z budget) }
{
    match &place.item {
        OpenItem::Counts(listing, boxes) => {
            counts_tree(alloc, model, listing, boxes, place.value, z, budget)
        }
        OpenItem::Place(_) => Err(NoMemory),
    }
}

/// The tree over the counts that are the last of the open places.
fn tree_at_last(
    alloc: Global,
    model: &Model,
    mut opened: Vec<OpenPlace>,
    z: i64,
    budget: usize,
) -> Result<Grown, NoMemory>
    requires fit { All (IsOpenIn model.now) opened.items }
    ensures { IfOk result (IsGrownAtLast model.now opened.items z budget) }
{
    match opened.pop() {
        Some(place) => tree_below(alloc, model, &place, z, budget),
        None => Err(NoMemory),
    }
}

/// A node that lists the walks of the root place, and the tree over their counts.
fn list_tree(
    alloc: Global,
    model: &Model,
    made: MadeNode,
    opened: Vec<OpenPlace>,
    z: i64,
    nodes: usize,
) -> Result<Grown, NoMemory>
    requires root { IsListedRoot model.now z made opened.items }
    requires some { 1 ≤ nodes }
    ensures { IfOk result (IsTreeBelowRoot model.now z nodes) }
{
    let _sets = model.sets;
    let below = tree_at_last(alloc, model, opened, z, nodes - 1)?;
    on_top(alloc, made, below)
}

/// What the node of the root place does.
enum RootNode {
    Lists,
    Splits,
    Closes,
}

fn root_node(form: &NodeForm) -> RootNode
    ensures { IsRootNode form.now result }
{
    match form {
        NodeForm::List(_, _) => RootNode::Lists,
        NodeForm::Split(_, _) => RootNode::Splits,
        _ => RootNode::Closes,
    }
}

/// A root place with too many walks to list is left: its node goes.
fn left(_made: MadeNode, _opened: Vec<OpenPlace>, z: i64) -> Plain
    ensures { result ≡ Plain.Left z None }
{
    Plain::Left(z, None)
}

/// What comes of the node of the root place: its walks are listed, or there are too many of them, or it is closed.
fn plain_from(
    alloc: Global,
    model: &Model,
    made: MadeNode,
    opened: Vec<OpenPlace>,
    z: i64,
    labels: u32,
    nodes: usize,
) -> Plain
    requires root { IsNodeAt model.now (root_place model.now) (least_box_cost model.now) z labels made opened.items }
    requires some { 1 ≤ nodes }
    ensures { IsPlainTree model.now z labels nodes result }
{
    let _labels = labels;
    match root_node(&made.form) {
        RootNode::Lists => told(list_tree(alloc, model, made, opened, z, nodes)),
        RootNode::Splits => left(made, opened, z),
        RootNode::Closes => told(one_node(alloc, made, opened, z)),
    }
}

/// Why the labels were not enough at the root place is not asked: it is left.
fn left_at_wall(_wall: LabelWall, z: i64) -> Plain
    ensures { result ≡ Plain.Left z None }
{
    Plain::Left(z, None)
}

/// What comes of the root place, as it was worked.
fn plain_worked(
    alloc: Global,
    model: &Model,
    worked: Worked,
    z: i64,
    labels: u32,
    nodes: usize,
) -> Plain
    requires worked { IsWorked model.now (root_place model.now) (least_box_cost model.now) z labels worked }
    requires some { 1 ≤ nodes }
    ensures { IsPlainTree model.now z labels nodes result }
{
    match worked {
        Worked::Node(made, opened) => plain_from(alloc, model, made, opened, z, labels, nodes),
        Worked::Wall(wall) => left_at_wall(wall, z),
        Worked::Memory => Plain::Memory,
    }
}

/// Tries the tree that lists all walks at the root place and works their counts depth first, within both limits.
pub fn plain_tree(
    alloc: Global,
    model: &Model,
    root: &OpenPlace,
    z: i64,
    labels: u32,
    nodes: usize,
) -> Plain
    requires root { valued root.now ≡ valued_root model.now }
    requires fits { IsOpenIn model.now root.now }
    requires some { 1 ≤ nodes }
    requires some_labels { 1 ≤ labels }
    requires few_labels { labels ≤ MAX_LABELS }
    requires cost { z ≤ℤ cost_above_all model.now }
    ensures { IsPlain model.now root.now z labels nodes result }
{
    let OpenItem::Place(spot) = &root.item else {
        return Plain::Memory;
    };
    let worked = work_place(alloc, model, spot, root.value, z, labels);
    plain_worked(alloc, model, worked, z, labels, nodes)
}
