ghost use Rattle.std.specs.Prelude.{◌≡◌, ◌<◌, [], All, IfOk, length, map};
ghost use Rattle.std.specs.List.{range_with_len};
ghost use Rattle.proof_check.specs.Index.{IsIndex};

use path_graph::{List, NoMemory};
use route_labels::Label;
use std::alloc::Global;

/// For each of so many vertices the places of its labels, ascending.
///
/// It is made in one pass, so that a dominator, or the labels that join over an arc, are looked for at one vertex alone.
pub fn label_index(
    alloc: Global,
    count: usize,
    labels: &[Label],
) -> Result<List<List<usize>>, NoMemory>
    requires { All (λ label. label.vertex < count) labels.now }
    ensures { IfOk result (IsIndex labels.now count) }
{
    let mut index = empty_lists(alloc, count)?;
    for (place, label) in labels.iter().enumerate() {
        index[label.vertex as usize].push(place)?;
    }
    Ok(List::from_vec(index))
}

/// So many empty lists.
fn empty_lists(alloc: Global, count: usize) -> Result<Vec<List<usize>>, NoMemory>
    ensures { IfOk result (λ lists. lists.items ≡ map (λ v. []) (range_with_len 0 count)) }
{
    let mut lists = Vec::new(alloc);
    for _ in 0..count {
        lists.push(List::new(alloc))?;
    }
    Ok(lists)
}
