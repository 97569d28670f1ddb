ghost use Rattle.std.specs.Prelude.{IfOk};
ghost use Rattle.search_steps.specs.Trees.{IsOneNode, IsOnTop};

use made_nodes::MadeNode;
use path_graph::NoMemory;
use search_tree::{Grown, OpenPlace};
use std::alloc::Global;

/// A node alone, with the places that it opens.
pub(crate) fn one_node(
    alloc: Global,
    made: MadeNode,
    opened: Vec<OpenPlace>,
    z: i64,
) -> Result<Grown, NoMemory>
    ensures { IfOk result (IsOneNode made opened.items z) }
{
    let mut nodes = Vec::new(alloc);
    nodes.push(made)?;
    Ok(Grown {
        nodes,
        rest: opened,
        z,
        best: None,
    })
}

/// A node, and the tree below it.
pub(crate) fn on_top(alloc: Global, made: MadeNode, below: Grown) -> Result<Grown, NoMemory>
    ensures { IfOk result (IsOnTop made below) }
{
    let Grown {
        nodes: mut after,
        rest,
        z,
        best,
    } = below;
    let mut nodes = Vec::new(alloc);
    nodes.push(made)?;
    nodes.append(&mut after)?;
    Ok(Grown {
        nodes,
        rest,
        z,
        best,
    })
}
