ghost use Rattle.std.specs.Prelude.{◌≡◌, IfOk};

use crate::multipliers::Quantity;
use path_graph::{List, NoMemory};
use std::alloc::Global;

/// A box of numbers: both ends are in it.
#[derive(Clone, Copy, Debug, PartialEq, Eq)]
pub struct Span {
    pub low: i64,
    pub high: i64,
}

/// A box for each variable, and one for the number of paths of each graph.
#[derive(Debug, Drop)]
pub struct Boxes {
    pub vars: List<Span>,
    pub paths: List<Span>,
}

/// A place of a search: its boxes, and for each graph and each of its arcs whether the arc is dropped.
#[derive(Debug, Drop)]
pub struct Spot {
    pub boxes: Boxes,
    pub fixed: List<List<bool>>,
}

/// How a place is split in two: the numbers of a variable or path count up to `at`, and those above.
#[derive(Clone, Copy, Debug, PartialEq, Eq)]
pub struct Split {
    pub quantity: Quantity,
    pub at: i64,
}

impl Boxes {
    /// Equal boxes.
    pub fn copy(&self, alloc: Global) -> Result<Boxes, NoMemory>
        ensures { IfOk result (λ boxes. boxes ≡ self.now) }
    {
        let vars = self.vars.copy(alloc)?;
        let paths = self.paths.copy(alloc)?;
        Ok(Boxes { vars, paths })
    }
}

impl Spot {
    /// An equal place.
    pub fn copy(&self, alloc: Global) -> Result<Spot, NoMemory>
        ensures { IfOk result (λ spot. spot ≡ self.now) }
    {
        let boxes = self.boxes.copy(alloc)?;
        let fixed = marks_copy(alloc, self.fixed.as_slice())?;
        Ok(Spot { boxes, fixed })
    }
}

/// Equal marks.
fn marks_copy(alloc: Global, fixed: &[List<bool>]) -> Result<List<List<bool>>, NoMemory>
    ensures { IfOk result (λ marks. marks ≡ fixed.now) }
{
    let mut marks = Vec::new(alloc);
    for graph in fixed {
        marks.push(graph.copy(alloc)?)?;
    }
    Ok(List::from_vec(marks))
}
