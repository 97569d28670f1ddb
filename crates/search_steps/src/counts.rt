ghost use Rattle.std.specs.Prelude.{◌≡◌, map, IfOk};
ghost use Rattle.cert_check.specs.Reads.{CountsFit};
ghost use Rattle.search_tree.specs.Places.{all_valued};
ghost use Rattle.search_steps.specs.Trees.{IsGrownBelow, listed_at, walks_in};

use count_trees::grow_counts;
use path_graph::{List, NoMemory};
use route_model::{Model, Span};
use search_tree::{Grown, Listing, OpenItem, OpenPlace};
use std::alloc::Global;
use std::rc::Rc;

/// Counts that are open, as places with a value.
fn count_places(
    alloc: Global,
    listing: &Rc<Listing>,
    value: i64,
    rest: Vec<List<Span>>,
) -> Result<Vec<OpenPlace>, NoMemory>
    ensures { IfOk result (λ places. all_valued places.items ≡ map (listed_at listing.now.value value) rest.items) }
{
    let mut places = Vec::new(alloc);
    for boxes in rest {
        places.push(OpenPlace {
            item: OpenItem::Counts(listing.clone()?, boxes),
            value,
        })?;
    }
    Ok(places)
}

/// Grows a tree over counts of listed walks, where each count that stays open keeps the value.
pub(crate) fn counts_tree(
    alloc: Global,
    model: &Model,
    listing: &Rc<Listing>,
    boxes: &List<Span>,
    value: i64,
    z: i64,
    budget: usize,
) -> Result<Grown, NoMemory>
    requires fits { CountsFit model.now listing.now.value.spot (walks_in listing.now.value) boxes.now }
    ensures { IfOk result (IsGrownBelow model.now (listed_at listing.now.value value boxes.now) z budget) }
{
    let spot = &listing.spot;
    let walks = listing.walks.as_slice();
    let boxes = boxes.copy(alloc)?;
    let growth = grow_counts(alloc, model, spot, walks, boxes, z, budget)?;
    let rest = count_places(alloc, listing, value, growth.rest)?;
    Ok(Grown {
        nodes: growth.nodes,
        rest,
        z: growth.z,
        best: growth.best,
    })
}
