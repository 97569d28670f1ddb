ghost use Rattle.std.specs.Prelude.{◌≡◌, ◌≤◌, ◌∷◌, [], IfOk, replicate};
ghost use Rattle.label_core.specs.Puts.{fresh};
ghost use Rattle.plain_table.specs.Fillings.{IsFilling};

use label_core::{Entry, Place, Turn};
use label_space::Space;
use path_graph::{List, NoMemory};
use std::alloc::Global;

/// A table that is being filled.
#[derive(Drop)]
pub struct Filling<L> {
    /// The entries of each cell.
    pub cells: Vec<List<Entry<L>>>,
    /// The places of all entries, in the order in which they came.
    pub order: Vec<Place>,
    /// How many places of the order have had their turn.
    pub next: usize,
}

/// Whether a step could be made, or came upon the limit.
#[derive(Debug, Drop)]
pub enum Step {
    Went,
    Wall,
}

/// The table with the root alone.
pub fn opened<S: Space>(alloc: Global, space: &S, limit: u32) -> Result<Filling<S::Label>, NoMemory>
    requires { 1 ≤ limit }
    ensures { IfOk result (IsFilling (S.rules space.now) limit) }
{
    let root = space.root();
    let cell = space.cell(&root);
    let mut cells = empty_cells(alloc, space.cells())?;
    cells[cell as usize] = root_alone(alloc, root)?;
    let mut order = Vec::new(alloc);
    order.push(Place { cell, index: 0 })?;
    Ok(Filling {
        cells,
        order,
        next: 0,
    })
}

/// So many empty cells.
fn empty_cells<L: Drop>(alloc: Global, count: u32) -> Result<Vec<List<Entry<L>>>, NoMemory>
    ensures { IfOk result (λ cells. cells.items ≡ replicate count []) }
{
    let mut cells = Vec::new(alloc);
    for _ in 0..count {
        cells.push(List::new(alloc))?;
    }
    Ok(cells)
}

/// The entries of the root's cell before any other comes.
fn root_alone<L: Drop>(alloc: Global, root: L) -> Result<List<Entry<L>>, NoMemory>
    ensures { IfOk result (λ entries. entries ≡ fresh root None ∷ []) }
{
    let mut entries = List::new(alloc);
    entries.push(Entry {
        label: root,
        origin: None,
        turn: Turn::Fresh,
        gone: None,
    })?;
    Ok(entries)
}
