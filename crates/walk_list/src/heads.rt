//! The labels of a list by the vertices at which they stand.

ghost use Rattle.std.specs.Prelude.{◌≡◌, ℕ, ◌<◌, [], All, IfOk, length, map};
ghost use Rattle.std.specs.List.{range_with_len};
ghost use Rattle.list_check.specs.Heads.{places_at};

use path_graph::{List, NoMemory};
use route_labels::Label;
use std::alloc::Global;

/// So many empty lists.
fn empty_lists(alloc: Global, count: usize) -> Result<Vec<List<usize>>, NoMemory>
    ensures { IfOk result (λ lists. lists.items ≡ map (λ v. []) (range_with_len 0 count)) }
{
    let mut lists = Vec::new(alloc);
    for _ in 0..count {
        lists.push(List::new(alloc))?;
    }
    Ok(lists)
}

/// For each vertex the places of the labels there, in order.
pub(crate) fn heads_of(
    alloc: Global,
    count: usize,
    labels: &[Label],
) -> Result<List<List<usize>>, NoMemory>
    requires { All (λ label. label.vertex < count) labels.now }
    ensures { IfOk result (λ lists. lists ≡ map (places_at labels.now) (range_with_len 0 count)) }
{
    let mut lists = empty_lists(alloc, count)?;
    for (k, label) in labels.iter().enumerate() {
        lists[label.vertex as usize].push(k)?;
    }
    Ok(List::from_vec(lists))
}
