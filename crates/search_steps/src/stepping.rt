ghost use Rattle.std.specs.Prelude.{◌≡◌, ℕ, ◌≤◌, ◌≤ℤ◌, []};
ghost use Rattle.route_model.specs.Costs.{cost_above_all};
ghost use Rattle.route_model.specs.Places.{SpotFits};
ghost use Rattle.multipliers.specs.Ranges.{MultFits};
ghost use Rattle.line_text.specs.Items.{EachAfter};
ghost use Rattle.certificate.specs.declared.limits.TheConstants.{MAX_LABELS};
ghost use Rattle.certificate.specs.CertText.{NearMay};
ghost use Rattle.certificate.specs.Sizes.{sizes_of};
ghost use Rattle.cert_check.specs.Reads.{CountsFit};
ghost use Rattle.column_rounds.specs.Found.{IsSplitAt};
ghost use Rattle.search_steps.specs.Steps.{IsStep};
ghost use Rattle.search_steps.specs.Told.{IsSteppedAs};
ghost use Rattle.search_steps.specs.Trees.{counts_at, place_at, walks_in};

use crate::counts::counts_tree;
use crate::node_trees::one_node;
use path_graph::{List, NoMemory, SetBits};
use place_nodes::{LabelWall, Worked, work_priced};
use route_model::{Model, Mult, Span, Split, Spot};
use search_tree::{Grown, Listing};
use std::alloc::Global;
use std::rc::Rc;

/// What comes of a step at an open place.
#[derive(Drop)]
pub enum Stepped {
    Grown(Grown),
    Wall(LabelWall),
    Memory,
}

/// A tree that was grown, or want of memory.
fn step_told(tree: Result<Grown, NoMemory>) -> Stepped
    ensures { IsSteppedAs tree result }
{
    match tree {
        Ok(grown) => Stepped::Grown(grown),
        Err(_) => Stepped::Memory,
    }
}

/// The node at an open place, with multipliers, the lines of near lists, and a split.
///
/// `labels` is the limit of labels of a table, and of the lines of a list.
pub fn grow_place(
    alloc: Global,
    model: &Model,
    spot: &Spot,
    value: i64,
    z: i64,
    labels: u32,
    budget: usize,
    mult: Mult,
    near: List<(u32, u32, SetBits)>,
    split: Option<Split>,
) -> Stepped
    requires spot { SpotFits model.now spot.now }
    requires some { 1 ≤ budget }
    requires some_labels { 1 ≤ labels }
    requires few_labels { labels ≤ MAX_LABELS }
    requires cost { z ≤ℤ cost_above_all model.now }
    requires mult { MultFits model.now mult }
    requires cuts { mult.cuts ≡ [] }
    requires near { EachAfter (NearMay (sizes_of model.now)) [] near }
    requires split { IsSplitAt model.now spot.now split }
    ensures { IsStep model.now (place_at spot.now value) z labels budget result }
{
    match work_priced(alloc, model, spot, value, z, labels, mult, near, split) {
        Worked::Node(made, opened) => step_told(one_node(alloc, made, opened, z)),
        Worked::Wall(wall) => Stepped::Wall(wall),
        Worked::Memory => Stepped::Memory,
    }
}

/// A tree over counts of listed walks, of at most so many nodes: depth first, until nothing is open or the budget is spent.
pub fn grow_listed(
    alloc: Global,
    model: &Model,
    listing: &Rc<Listing>,
    boxes: &List<Span>,
    value: i64,
    z: i64,
    budget: usize,
) -> Stepped
    requires fits { CountsFit model.now listing.now.value.spot (walks_in listing.now.value) boxes.now }
    requires some { 1 ≤ budget }
    ensures { (labels : ℕ) → IsStep model.now (counts_at listing.now boxes.now value) z labels budget result }
{
    step_told(counts_tree(alloc, model, listing, boxes, value, z, budget))
}
