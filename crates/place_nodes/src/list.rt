//! The walks of a place, and the node that lists them.

ghost use Rattle.std.specs.Prelude.{◌≡◌, IfOk, pos, reverse};
ghost use Rattle.route_model.specs.Places.{span_at};
ghost use Rattle.proof_rules.specs.Nodes.{first_boxes as boxes_of};
ghost use Rattle.search_tree.specs.Places.{all_valued};
ghost use Rattle.walk_list.specs.Listings.{AreComplete, AreCutOff, AreFew, MatchListed};
ghost use Rattle.walk_list.specs.Walks.{walks_said};
ghost use Rattle.place_nodes.specs.Bounds.{IsOpenBound};
ghost use Rattle.place_nodes.specs.Lists.{counts_opened, walks_at};
ghost use Rattle.place_nodes.specs.Proofs.{IsOf, IsPlaceProof};
ghost use Rattle.place_nodes.specs.Tasks.{IsWorkedAt, TaskFits};

use crate::proof::Known;
use crate::task::Task;
use crate::work::Worked;
use certificate::{NodeForm, Trie};
use made_nodes::MadeNode;
use path_graph::{List, NoMemory};
use route_model::{Span, Spot};
use search_tree::{Listing, OpenItem, OpenPlace};
use std::alloc::Global;
use std::rc::Rc;
use walk_list::{Listed, ListedWalk, list_walks, listed_walks};

/// The trees of the walks of a place that may cost less than the cost to beat.
pub(crate) fn trees_of(alloc: Global, task: &Task, known: &Known) -> Listed
    requires task { TaskFits task.now }
    requires known { IsPlaceProof task.now.model.now task.now.spot.now known.now }
    ensures trees { MatchListed result
        (AreComplete task.now.model.now task.now.spot.now (IsOf task.now known.now) task.now.z)
        (AreCutOff task.now.model.now task.now.spot.now (IsOf task.now known.now) task.now.z task.now.limit) }
    ensures few { MatchListed result (AreFew task.now.limit) (AreFew task.now.limit) }
{
    list_walks(
        alloc,
        task.model,
        task.spot,
        &known.priced,
        &known.near,
        known.proof.cuts.as_slice(),
        known.proof.mult.cuts.as_slice(),
        known.proof.tables.as_slice(),
        task.z,
        task.limit,
    )
}

/// The walks that complete trees list.
fn walks_of(
    alloc: Global,
    task: &Task,
    known: &Known,
    tries: &[Trie],
) -> Result<List<ListedWalk>, NoMemory>
    requires task { TaskFits task.now }
    requires known { IsPlaceProof task.now.model.now task.now.spot.now known.now }
    requires trees { AreComplete task.now.model.now task.now.spot.now (IsOf task.now known.now) task.now.z tries.now }
    ensures { IfOk result (λ walks. walks_said walks ≡ walks_at task.now known.now tries.now) }
{
    listed_walks(
        alloc,
        task.model,
        task.spot,
        &known.priced,
        &known.near,
        known.proof.cuts.as_slice(),
        known.proof.mult.cuts.as_slice(),
        known.proof.tables.as_slice(),
        tries,
    )
}

/// The first box of the count of a walk: from 0 to the most paths of its graph.
fn first_box(spans: &[Span], graph: u32) -> Span
    ensures low { result.low ≡ pos 0 }
    ensures high { result.high ≡ (span_at spans.now graph).high }
{
    match spans.get(graph as usize) {
        None => Span { low: 0, high: 0 },
        Some(span) => Span {
            low: 0,
            high: span.high,
        },
    }
}

/// The first boxes of the counts of walks.
fn first_boxes(alloc: Global, spot: &Spot, walks: &[ListedWalk]) -> Result<List<Span>, NoMemory>
    ensures { IfOk result (λ boxes. boxes ≡ boxes_of spot.now (walks_said walks.now)) }
{
    let mut boxes = List::new(alloc);
    for walk in walks {
        boxes.push(first_box(spot.boxes.paths.as_slice(), walk.graph))?;
    }
    Ok(boxes)
}

/// Counts of the walks that complete trees list, with the value of the place.
fn opened_counts(
    alloc: Global,
    task: &Task,
    known: &Known,
    tries: &[Trie],
) -> Result<Vec<OpenPlace>, NoMemory>
    requires task { TaskFits task.now }
    requires known { IsPlaceProof task.now.model.now task.now.spot.now known.now }
    requires trees { AreComplete task.now.model.now task.now.spot.now (IsOf task.now known.now) task.now.z tries.now }
    ensures { IfOk result (λ opened. all_valued (reverse opened.items) ≡ counts_opened task.now known.now tries.now) }
{
    let walks = walks_of(alloc, task, known, tries)?;
    let boxes = first_boxes(alloc, task.spot, walks.as_slice())?;
    let spot = task.spot.copy(alloc)?;
    let listing = Rc::new(alloc, Listing { spot, walks })?;
    let mut opened = Vec::new(alloc);
    opened.push(OpenPlace {
        item: OpenItem::Counts(listing, boxes),
        value: task.value,
    })?;
    Ok(opened)
}

/// A node that lists the walks of the place, and opens their counts.
pub(crate) fn list_node(
    alloc: Global,
    task: &Task,
    known: Known,
    bound: i128,
    tries: List<Trie>,
) -> Worked
    requires task { TaskFits task.now }
    requires known { IsPlaceProof task.now.model.now task.now.spot.now known }
    requires bound { IsOpenBound task.now known bound }
    requires trees { AreComplete task.now.model.now task.now.spot.now (IsOf task.now known) task.now.z tries }
    requires few { AreFew task.now.limit tries }
    ensures { IsWorkedAt task.now result }
{
    match opened_counts(alloc, task, &known, tries.as_slice()) {
        Err(_) => Worked::Memory,
        Ok(opened) => {
            let form = NodeForm::List(known.proof, tries);
            Worked::Node(MadeNode { form, bound }, opened)
        }
    }
}
