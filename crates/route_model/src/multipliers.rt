ghost use Rattle.std.specs.Prelude.{◌≡◌, IfOk};

use path_graph::{List, NoMemory};
use std::alloc::Global;

/// What a multiplier stands on: a variable, a row, a packing set, a cut, or the number of paths of a graph.
#[derive(Clone, Copy, Debug, PartialEq, Eq)]
pub enum Quantity {
    Var(u32),
    Row(u32),
    Set(u16),
    Cut(u32),
    Paths(u32),
}

/// A multiplier for each quantity, at the scale of 65,536 to a unit of cost.
///
/// The multiplier of a cut is not positive, and is written as its distance below 0.
#[derive(Debug, Drop)]
pub struct Mult {
    pub vars: List<i64>,
    pub rows: List<i64>,
    pub sets: List<i64>,
    pub cuts: List<u64>,
    pub paths: List<i64>,
}

/// What multipliers make of the boxes of a place, at the scale of 65,536 to a unit of cost: the sum of the terms, and
/// the reduced costs of each arc of each graph, of a visit to each packing set, and of a path of each graph before its
/// first arc. The cuts are left aside.
#[derive(Debug, Drop)]
pub struct Priced {
    pub base: i128,
    pub arcs: List<List<i128>>,
    pub visits: List<i128>,
    pub starts: List<i128>,
}

/// Why multipliers can't be priced.
#[derive(Clone, Copy, Debug, PartialEq, Eq)]
pub enum MultFault {
    /// The multiplier of this quantity, the first such, needs a side that is open.
    OpenSide(Quantity),
    Memory,
}

impl Mult {
    /// Equal multipliers.
    pub fn copy(&self, alloc: Global) -> Result<Mult, NoMemory>
        ensures { IfOk result (λ mult. mult ≡ self.now) }
    {
        let vars = self.vars.copy(alloc)?;
        let rows = self.rows.copy(alloc)?;
        let sets = self.sets.copy(alloc)?;
        let cuts = self.cuts.copy(alloc)?;
        let paths = self.paths.copy(alloc)?;
        Ok(Mult {
            vars,
            rows,
            sets,
            cuts,
            paths,
        })
    }
}
