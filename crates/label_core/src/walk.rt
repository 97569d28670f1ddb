ghost use Rattle.std.specs.Prelude.{◌≡◌, ℕ, IfOk, List};
ghost use Rattle.label_core.specs.declared.table.Entry.{Entry};
ghost use Rattle.label_core.specs.Tables.{StandsAt};
ghost use Rattle.label_core.specs.Walks.{LeadsBack, IsWalkOf, HasOrigins};

use crate::table::{Origin, Place, Table};
use path_graph::NoMemory;
use std::alloc::Global;

/// The partial walk of an entry: the arcs of its origins, from the root on.
///
/// The time grows as the length of the walk.
pub fn walk_of<L>(alloc: Global, t: &Table<L>, at: Place) -> Result<path_graph::List<u32>, NoMemory>
    requires stands { (e : Entry L) × StandsAt t.now.cells at e }
    requires origins { HasOrigins t.now.cells }
    ensures { IfOk result (IsWalkOf t.now.cells at) }
{
    let mut arcs = arcs_back(alloc, t, at)?;
    arcs.reverse();
    Ok(path_graph::List::from_vec(arcs))
}

/// The arcs of the origins from an entry back to the root, the last arc first.
fn arcs_back<L>(alloc: Global, t: &Table<L>, at: Place) -> Result<Vec<u32>, NoMemory>
    requires { (arcs : List ℕ) × LeadsBack t.now.cells at arcs }
    ensures { IfOk result (λ back. LeadsBack t.now.cells at back.items) }
{
    let mut back = Vec::new(alloc);
    let mut place = at;
    while let Some(origin) = origin_at(t, place) {
        back.push(origin.arc)?;
        place = origin.parent;
    }
    Ok(back)
}

/// The origin of the entry at a place.
fn origin_at<L>(t: &Table<L>, at: Place) -> Option<Origin>
    requires { (e : Entry L) × StandsAt t.now.cells at e }
    ensures { (e : Entry L) → StandsAt t.now.cells at e → result ≡ e.origin }
{
    t.cells.at(at.cell as usize).at(at.index as usize).origin
}
