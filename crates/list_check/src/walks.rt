//! The walks that a tree lists.

ghost use Rattle.std.specs.Prelude.{◌≡◌, ℕ, ◌<◌, ◌≤◌, ◌^◌, IfOk, length, map};
ghost use Rattle.proof_rules.specs.PrefixTrees.{IsTree, prefix_of as prefix_in, step_at, walks_of as walks_in};
ghost use Rattle.route_labels.specs.Fit.{FieldFits};
ghost use Rattle.route_labels.specs.Meaning.{setting_of};
ghost use Rattle.cert_rules.specs.Meaning.{step_of, steps_of};

use certificate::{Step, Trie};
use path_graph::{List, NoMemory};
use route_labels::Field;
use std::alloc::Global;

/// The walks of a tree: the prefixes of its nodes at the sink, in order.
///
/// The time is linear in the steps and in the lengths of the walks.
pub fn walks_of(alloc: Global, field: &Field, trie: &Trie) -> Result<List<List<u32>>, NoMemory>
    requires field { FieldFits field.now }
    requires tree { IsTree (setting_of field.now) (steps_of trie.now) }
    ensures { IfOk result (λ walks. walks ≡ walks_in (setting_of field.now) (steps_of trie.now)) }
{
    let graph = field.path_graph();
    let sink = graph.ends().sink;
    let steps = trie.steps.as_slice();
    let mut walks = List::new(alloc);
    for (n, step) in steps.iter().enumerate() {
        if graph.arc(step.arc).head == sink {
            let walk = prefix_of(alloc, steps, n + 1)?;
            walks.push(walk)?;
        }
    }
    Ok(walks)
}

/// The prefix of a node, read off the steps from the last arc to the first.
fn prefix_of(alloc: Global, steps: &[Step], node: usize) -> Result<List<u32>, NoMemory>
    requires parents { (n : ℕ) → n < length steps.now → (step_at (map step_of steps.now) n).parent ≤ n }
    requires node { node ≤ length steps.now }
    ensures { IfOk result (λ arcs. arcs ≡ prefix_in (map step_of steps.now) node) }
{
    let mut arcs = Vec::new(alloc);
    let mut at = node;
    while at > 0 {
        let step = steps[at - 1];
        arcs.push(step.arc)?;
        at = step.parent as usize;
    }
    arcs.reverse();
    Ok(List::from_vec(arcs))
}
