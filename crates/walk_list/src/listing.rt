//! The trees of all graphs.

ghost use Rattle.std.specs.Prelude.{◌≤◌, IfOk, OnOk, length};
ghost use Rattle.std.specs.Bool.{OnTrue, OnFalse};
ghost use Rattle.walk_list.specs.Listings.{AreComplete, AreCutOff, AreFew, IsProofWith, ListingFits, MatchListed};
ghost use Rattle.walk_list.specs.Tasks.{AreAllWhole, AreFull, TaskFits};

use crate::task::{Task, leasts_of, tree_of};
use certificate::Trie;
use label_rules::ProofTable;
use ng_sets::Near;
use path_graph::{List, NoMemory};
use rank1_cuts::Cut;
use route_model::{Model, Priced, Spot};
use std::alloc::Global;

/// What a listing answers: prefix trees, one for each graph in order, that are complete; trees that reached the limit on their
/// lines, where further walks are left; or that memory ran out.
#[derive(Debug, Drop)]
pub enum Listed {
    Tries(List<Trie>),
    Wall(List<Trie>),
    Memory,
}

/// Lists the walks of a place that may cost less than z, graph by graph: prefix trees whose nodes have a child over each
/// demanded arc.
///
/// An arc is demanded after a prefix where the prefix goes on over it, enters no packing set again, and its label joins one of
/// the graph's labels of rests at no more than the limit of a walk. Each line is over a demanded arc, and at most `limit` lines
/// are made over all graphs; where one more is demanded, the answer is `Wall` with exactly so many. The graphs are taken in
/// order, and those that are not reached have no line. The time is that of the nodes, each with the arcs out of its vertex, and
/// for each arc that of the labels of rests at its head; memory is that of the nodes.
pub fn list_walks(
    alloc: Global,
    model: &Model,
    spot: &Spot,
    priced: &Priced,
    near: &Near,
    cuts: &[Cut],
    y: &[u64],
    tables: &[ProofTable],
    z: i64,
    limit: u32,
) -> Listed
    requires { ListingFits model.now spot.now priced.now near.now cuts.now y.now tables.now }
    ensures trees { MatchListed result
        (AreComplete model.now spot.now (IsProofWith model.now spot.now priced.now near.now cuts.now y.now tables.now) z)
        (AreCutOff model.now spot.now (IsProofWith model.now spot.now priced.now near.now cuts.now y.now tables.now) z limit) }
    ensures few { MatchListed result (AreFew limit) (AreFew limit) }
{
    let task = Task {
        model,
        spot,
        priced,
        near,
        cuts,
        y,
        tables,
        z,
    };
    match list_all(alloc, &task, limit) {
        Err(_) => Listed::Memory,
        Ok((tries, whole)) => {
            if whole {
                Listed::Tries(tries)
            } else {
                Listed::Wall(tries)
            }
        }
    }
}

/// The trees of all graphs, and whether they are whole.
fn list_all(alloc: Global, task: &Task, limit: u32) -> Result<(List<Trie>, bool), NoMemory>
    requires { TaskFits task.now }
    ensures whole { IfOk result (λ made. OnTrue made.1 (AreAllWhole task.now limit made.0)) }
    ensures full { IfOk result (λ made. OnFalse made.1 (AreFull task.now limit (length task.now.model.now.graphs) made.0)) }
{
    let leasts = leasts_of(alloc, task.tables)?;
    let mut tries = List::new(alloc);
    let mut room = limit;
    let model = task.model;
    for graph in 0..model.graphs.len() {
        let (steps, whole) = tree_of(alloc, task, leasts.as_slice(), graph as u32, room)?;
        let lines = steps.len();
        tries.push(Trie {
            graph: graph as u32,
            steps,
        })?;
        if !whole {
            fill(alloc, task, &mut tries, limit)?;
            return Ok((tries, false));
        }
        room -= lines as u32;
    }
    Ok((tries, true))
}

/// Puts a tree without lines for each graph that is left.
fn fill(alloc: Global, task: &Task, tries: &mut List<Trie>, limit: u32) -> Result<(), NoMemory>
    requires task { TaskFits task.now }
    requires within { length tries.old ≤ length task.now.model.now.graphs }
    requires full { AreFull task.now limit (length tries.old) tries.old }
    ensures { OnOk result (AreFull task.now limit (length task.now.model.now.graphs) tries.new) }
{
    let model = task.model;
    for graph in tries.len()..model.graphs.len() {
        tries.push(Trie {
            graph: graph as u32,
            steps: List::new(alloc),
        })?;
    }
    Ok(())
}
