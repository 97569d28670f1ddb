//! The walks that trees list.

ghost use Rattle.std.specs.Prelude.{◌≡◌, ◌<◌, ◌++◌, IfOk, OnOk, length};
ghost use Rattle.proof_rules.specs.Nodes.{walks_in};
ghost use Rattle.proof_rules.specs.PrefixTrees.{IsTree, walks_of as walks_in_tree};
ghost use Rattle.cert_rules.specs.Meaning.{steps_of};
ghost use Rattle.walk_list.specs.Listings.{IsProofWith, ListingFits};
ghost use Rattle.walk_list.specs.Tasks.{IsProofOf, TaskFits, setting_in};
ghost use Rattle.walk_list.specs.Walks.{AreTrees, AreWalksOf, WalksStand, walks_said};

use crate::task::{Task, field_of};
use certificate::Trie;
use label_rules::ProofTable;
use list_check::walks_of;
use ng_sets::Near;
use path_graph::{List, NoMemory};
use rank1_cuts::Cut;
use route_model::{Model, Priced, Spot};
use std::alloc::Global;

/// A walk that is listed, with the number of its graph.
#[derive(Debug, Drop)]
pub struct ListedWalk {
    pub graph: u32,
    pub arcs: List<u32>,
}

/// The walks of prefix trees, graph by graph, and of a tree in the order of its nodes at the sink.
///
/// The trees are those of a listing at the same place. The time is linear in the lines and in the lengths of the walks.
pub fn listed_walks(
    alloc: Global,
    model: &Model,
    spot: &Spot,
    priced: &Priced,
    near: &Near,
    cuts: &[Cut],
    y: &[u64],
    tables: &[ProofTable],
    tries: &[Trie],
) -> Result<List<ListedWalk>, NoMemory>
    requires fits { ListingFits model.now spot.now priced.now near.now cuts.now y.now tables.now }
    requires trees { AreTrees model.now spot.now (IsProofWith model.now spot.now priced.now near.now cuts.now y.now tables.now) tries.now }
    ensures walks { IfOk result (AreWalksOf model.now spot.now
        (IsProofWith model.now spot.now priced.now near.now cuts.now y.now tables.now) tries.now) }
    ensures fit { IfOk result (WalksStand model.now tries.now) }
{
    let task = Task {
        model,
        spot,
        priced,
        near,
        cuts,
        y,
        tables,
        z: 0,
    };
    all_walks(alloc, &task, tries)
}

/// The walks of the trees of all graphs.
fn all_walks(alloc: Global, task: &Task, tries: &[Trie]) -> Result<List<ListedWalk>, NoMemory>
    requires task { TaskFits task.now }
    requires trees { AreTrees task.now.model.now task.now.spot.now (IsProofOf task.now) tries.now }
    ensures walks { IfOk result (AreWalksOf task.now.model.now task.now.spot.now (IsProofOf task.now) tries.now) }
    ensures fit { IfOk result (WalksStand task.now.model.now tries.now) }
{
    let model = task.model;
    let mut walks = List::new(alloc);
    for graph in 0..model.graphs.len() {
        let more = tree_walks(alloc, task, graph as u32, &tries[graph])?;
        add_walks(&mut walks, graph as u32, more)?;
    }
    Ok(walks)
}

/// The walks of the tree of a graph.
fn tree_walks(
    alloc: Global,
    task: &Task,
    graph: u32,
    trie: &Trie,
) -> Result<List<List<u32>>, NoMemory>
    requires task { TaskFits task.now }
    requires graph { graph < length task.now.model.now.graphs }
    requires tree { IsTree (setting_in task.now graph) (steps_of trie.now) }
    ensures { IfOk result (λ walks. walks ≡ walks_in_tree (setting_in task.now graph) (steps_of trie.now)) }
{
    let field = field_of(task, graph);
    walks_of(alloc, &field, trie)
}

/// Puts the walks of a graph behind those that are there.
fn add_walks(
    walks: &mut List<ListedWalk>,
    graph: u32,
    more: List<List<u32>>,
) -> Result<(), NoMemory>
    ensures { OnOk result (walks_said walks.new ≡ walks_said walks.old ++ walks_in graph more) }
{
    for arcs in more.into_vec() {
        walks.push(ListedWalk { graph, arcs })?;
    }
    Ok(())
}
