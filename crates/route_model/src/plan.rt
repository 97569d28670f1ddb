ghost use Rattle.std.specs.Prelude.{◌≡◌, IfOk};

use path_graph::{List, NoMemory};
use std::alloc::Global;

/// A walk of a graph, by its arcs from the source to the sink, taken so many times.
#[derive(Debug, Drop)]
pub struct Taken {
    pub graph: u32,
    pub count: u32,
    pub arcs: List<u32>,
}

/// A plan: walks with their counts.
#[derive(Debug, Drop)]
pub struct Plan {
    pub paths: List<Taken>,
}

/// The verdict on a plan: its cost where it is a solution, or else its first fault.
#[derive(Clone, Copy, Debug, PartialEq, Eq)]
pub enum Verdict {
    Fine { cost: i64 },
    /// The path at this place has an unknown graph or count 0, or is no feasible walk.
    NotWalk(u32),
    /// This graph's paths are too few or too many.
    Count(u32),
    /// This packing set is visited more than once.
    Packing(u16),
    /// This variable lies outside its box.
    VarBox(u32),
    /// The sum of this row lies outside its sides.
    RowBox(u32),
}

impl Taken {
    /// An equal path.
    pub fn copy(&self, alloc: Global) -> Result<Taken, NoMemory>
        ensures { IfOk result (λ taken. taken ≡ self.now) }
    {
        let arcs = self.arcs.copy(alloc)?;
        Ok(Taken {
            graph: self.graph,
            count: self.count,
            arcs,
        })
    }
}

impl Plan {
    /// An equal plan.
    pub fn copy(&self, alloc: Global) -> Result<Plan, NoMemory>
        ensures { IfOk result (λ plan. plan ≡ self.now) }
    {
        let mut paths = Vec::new(alloc);
        for taken in self.paths.as_slice() {
            paths.push(taken.copy(alloc)?)?;
        }
        Ok(Plan {
            paths: List::from_vec(paths),
        })
    }
}
