ghost use Rattle.std.specs.Prelude.{◌≡◌, ◌+◌, ◌<◌, ◌↔◌, ℕ, true, IfOk, None, length};
ghost use Rattle.std.specs.Option.{option_or};
ghost use Rattle.route_model.specs.Fit.{ModelFits};
ghost use Rattle.route_model.specs.Parts.{ModelParts};
ghost use Rattle.open_tree.specs.Slots.{IsOpenAt};
ghost use Rattle.search_tree.specs.declared.places.OpenPlace.{OpenPlace as Place};
ghost use Rattle.search_tree.specs.Grown.{IsGrownAt};
ghost use Rattle.search_tree.specs.Search.{IsSearch, made_in, slots_in};

use crate::places::OpenPlace;
use crate::search::Search;
use made_nodes::MadeNode;
use open_tree::put;
use path_graph::NoMemory;
use route_model::Plan;
use std::alloc::Global;

/// A tree that was grown at an open place: its nodes in preorder, and the places that it leaves open, the last of them first.
///
/// `z` is the cost to beat, which has fallen where a better plan was found.
#[derive(Debug, Drop)]
pub struct Grown {
    pub nodes: Vec<MadeNode>,
    pub rest: Vec<OpenPlace>,
    pub z: i64,
    pub best: Option<Plan>,
}

/// An open place gives way to a tree that was grown there.
///
/// Its plan is the best where it has one, and then the nodes are to be tested again.
pub fn give_way(alloc: Global, search: Search, at: usize, grown: Grown) -> Result<Search, NoMemory>
    requires { at < length (slots_in search) }
    ensures search { IfOk result (λ new. (m : ModelParts) (place : Place) (budget : ℕ)
        → ModelFits m → IsSearch m search → IsOpenAt (slots_in search) at place
        → IsGrownAt m place search.z budget grown → IsSearch m new) }
    ensures count { IfOk result (λ new. (place : Place) → IsOpenAt (slots_in search) at place
        → made_in new ≡ made_in search + length grown.nodes.items) }
    ensures cost { IfOk result (λ new. new.z ≡ grown.z) }
    ensures best { IfOk result (λ new. new.best ≡ option_or grown.best search.best) }
    ensures tested { IfOk result (λ new. (new.is_tested ≡ true)
        ↔ ((search.is_tested ≡ true) × (grown.best ≡ None))) }
{
    let is_tested = search.is_tested && grown.best.is_none();
    let slots = put(alloc, search.slots, at, grown.nodes, grown.rest)?;
    let best = grown.best.or(search.best);
    Ok(Search {
        slots,
        z: grown.z,
        best,
        is_tested,
    })
}
