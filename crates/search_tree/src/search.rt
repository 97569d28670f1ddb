ghost use Rattle.std.specs.Prelude.{◌≡◌, [], ◌∷◌, true, IfOk, Some};
ghost use Rattle.route_model.specs.Costs.{cost_above_all};
ghost use Rattle.route_model.specs.Parts.{ModelParts};
ghost use Rattle.proof_rules.specs.OpenTrees.{valued_root};
ghost use Rattle.made_nodes.specs.Better.{IsBetter};
ghost use Rattle.search_tree.specs.Places.{all_valued};
ghost use Rattle.search_tree.specs.Search.{IsSearch, mades_in, opens_in};

use crate::places::{OpenItem, OpenPlace};
use made_nodes::MadeNode;
use multipliers::root_spot;
use open_tree::Slot;
use path_graph::NoMemory;
use route_model::{Model, Plan, box_costs};
use std::alloc::Global;

/// The tree of a search in preorder, the best plan that was found, the cost to beat, and whether all nodes were tested against
/// it.
#[derive(Debug, Drop)]
pub struct Search {
    pub slots: Vec<Slot<OpenPlace, MadeNode>>,
    pub z: i64,
    pub best: Option<Plan>,
    pub is_tested: bool,
}

/// The root place is open, and nothing was found: the cost to beat is above all costs.
pub fn begin(alloc: Global, model: &Model) -> Result<Search, NoMemory>
    ensures search { IfOk result (IsSearch model.now) }
    ensures open { IfOk result (λ s. all_valued (opens_in s) ≡ valued_root model.now ∷ []) }
    ensures none { IfOk result (λ s. mades_in s ≡ []) }
    ensures first { IfOk result (λ s. s.z ≡ cost_above_all model.now) }
    ensures tested { IfOk result (λ s. s.is_tested ≡ true) }
{
    let (least, above_all) = box_costs(model);
    let root = OpenPlace {
        item: OpenItem::Place(root_spot(alloc, model)?),
        value: least,
    };
    Ok(Search {
        slots: vec![in alloc; Slot::Open(root)]?,
        z: above_all,
        best: None,
        is_tested: true,
    })
}

/// A better plan was found: its cost is to beat from then on, and the nodes are to be tested again.
pub fn with_best(search: Search, z: i64, plan: Plan) -> Search
    ensures search { (m : ModelParts) → IsSearch m search → IsBetter m search.z (Some plan) z
        → IsSearch m result }
    ensures slots { result.slots ≡ search.slots }
    ensures cost { result.z ≡ z }
    ensures best { result.best ≡ Some plan }
{
    Search {
        slots: search.slots,
        z,
        best: Some(plan),
        is_tested: false,
    }
}
