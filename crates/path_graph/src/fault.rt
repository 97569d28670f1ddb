ghost use Rattle.std.specs.Prelude.{◌≡◌};
ghost use Rattle.path_graph.specs.declared.fault.GraphFault.TheVariants.{Memory};

use crate::list::{List, NoMemory};

/// Why no graph is made of parts that fit.
#[derive(Debug, Drop)]
pub enum GraphFault {
    /// Arcs without main consumption form a cycle: its arcs, in order. The head of each is the tail of the next, and
    /// the head of the last the tail of the first.
    FreeCycle(List<u32>),
    Memory,
}

impl From<NoMemory> for GraphFault {
    ghost from_gives = { λ _ e. e ≡ Memory };

    fn from(_error: NoMemory) -> GraphFault {
        GraphFault::Memory
    }
}
