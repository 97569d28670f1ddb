ghost use Rattle.std.specs.Prelude.{◌≡◌, ◌≢◌, true, [], IfOk, map};
ghost use Rattle.search_tree.specs.Search.{IsSearch, opens_in};
ghost use Rattle.solve_run.specs.Told.{EndsAtWall, EndsAtNodes, best_said, told_slot};

use crate::outcome::{Best, Outcome};
use certificate::{Node, NodeForm};
use made_nodes::MadeNode;
use open_tree::Slot;
use path_graph::{List, NoMemory};
use place_nodes::LabelWall;
use route_model::{Model, Plan};
use search_rules::walls_pass_limits;
use search_tree::{OpenPlace, Search, open_bound, searches_are_walls};
use std::alloc::Global;

/// A made node has the line 1, an open place the line 0.
fn slot_told(slot: Slot<OpenPlace, MadeNode>) -> Node
    ensures { result ≡ told_slot slot }
{
    match slot {
        Slot::Open(_) => Node {
            line: 0,
            form: NodeForm::Point,
        },
        Slot::Made(node) => Node {
            line: 1,
            form: node.form,
        },
    }
}

/// The tree of a search, with its open places.
fn slots_told(alloc: Global, slots: Vec<Slot<OpenPlace, MadeNode>>) -> Result<List<Node>, NoMemory>
    ensures { IfOk result (λ nodes. nodes ≡ map told_slot slots.items) }
{
    let mut nodes = List::new(alloc);
    for slot in slots {
        nodes.push(slot_told(slot))?;
    }
    Ok(nodes)
}

/// The best plan, with its cost, which is to beat.
fn best_told(z: i64, best: Option<Plan>) -> Option<Best>
    ensures { result ≡ best_said z best }
{
    match best {
        Some(plan) => Some(Best { cost: z, plan }),
        None => None,
    }
}

/// A search that stops where labels are not enough.
pub(crate) fn label_limit(model: &Model, search: Search, wall: LabelWall) -> Outcome
    requires search { IsSearch model.now search }
    requires some_open { opens_in search ≢ [] }
    ensures { EndsAtWall model.now wall result }
{
    let _sets = model.sets;
    searches_are_walls();
    walls_pass_limits();
    let bound = open_bound(&search);
    let best = best_told(search.z, search.best);
    Outcome::LabelLimit { wall, best, bound }
}

/// A search that stops where as many nodes as may be are made, and none could be left out.
pub(crate) fn node_limit(alloc: Global, model: &Model, search: Search) -> Result<Outcome, NoMemory>
    requires search { IsSearch model.now search }
    requires some_open { opens_in search ≢ [] }
    requires tested { search.is_tested ≡ true }
    ensures { IfOk result (EndsAtNodes model.now search) }
{
    let _sets = model.sets;
    searches_are_walls();
    let bound = open_bound(&search);
    let nodes = slots_told(alloc, search.slots)?;
    let best = best_told(search.z, search.best);
    Ok(Outcome::NodeLimit { nodes, best, bound })
}
