//! The core at the beginning of a run.

ghost use Rattle.std.specs.Prelude.{◌≡◌, ◌≤◌, ◌∷◌, [], IfOk, replicate};
ghost use Rattle.label_core.specs.Puts.{opening, fresh};
ghost use Rattle.label_core.specs.Steps.{first_pass, opened};
ghost use Rattle.label_core.specs.Rule.{IsRuled};

use crate::machine::{Core, PassState};
use crate::table::{Entry, Table, Turn};
use label_space::Space;
use path_graph::{List, NoMemory};
use std::alloc::Global;

/// The core with the root as its one entry, and one pass with the whole weight. At most `limit`
/// entries are ever made, and at most `passes` passes live at once.
pub fn open_core<S: Space>(
    alloc: Global,
    space: &S,
    limit: u32,
    passes: u32,
) -> Result<Core<S::Label>, NoMemory>
    requires limit { 1 ≤ limit }
    requires passes { 1 ≤ passes }
    ensures opened { IfOk result (λ core. core ≡ opened (S.rules space.now) limit passes) }
    ensures rule { IfOk result (IsRuled (S.rules space.now)) }
{
    let core = core_at_root(alloc, space, limit, passes)?;
    Ok(core)
}

/// The core with the root as its one entry, and one pass with the whole weight.
fn core_at_root<S: Space>(
    alloc: Global,
    space: &S,
    limit: u32,
    passes: u32,
) -> Result<Core<S::Label>, NoMemory>
    ensures { IfOk result (λ core. core ≡ opened (S.rules space.now) limit passes) }
{
    let cells = space.cells();
    let mut states = List::new(alloc);
    states.push(first_pass_of(alloc, cells, passes)?)?;
    Ok(Core {
        table: opening_table(alloc, space)?,
        holders: List::from_vec(repeated(alloc, None, cells)?),
        numbers: 1,
        tickets: 1,
        limit,
        weight: passes,
        passes: states,
    })
}

/// So many equal items.
fn repeated<T: Copy + Drop>(alloc: Global, item: T, count: u32) -> Result<Vec<T>, NoMemory>
    ensures { IfOk result (λ items. items.items ≡ replicate count item) }
{
    let mut items = Vec::new(alloc);
    for _ in 0..count {
        items.push(item)?;
    }
    Ok(items)
}

/// The table with the root alone.
fn opening_table<S: Space>(alloc: Global, space: &S) -> Result<Table<S::Label>, NoMemory>
    ensures { IfOk result (λ table. table.cells ≡ opening (S.rules space.now)) }
{
    let root = space.root();
    let cell = space.cell(&root);
    let mut cells = empty_cells(alloc, space.cells())?;
    cells[cell as usize] = root_alone(alloc, root)?;
    Ok(Table {
        cells: List::from_vec(cells),
    })
}

/// So many empty cells.
fn empty_cells<L: Drop>(alloc: Global, count: u32) -> Result<Vec<List<Entry<L>>>, NoMemory>
    ensures { IfOk result (λ cells. cells.items ≡ replicate count []) }
{
    let mut cells = Vec::new(alloc);
    for _ in 0..count {
        cells.push(List::new(alloc))?;
    }
    Ok(cells)
}

/// The entries of the root's cell before any other comes.
fn root_alone<L: Drop>(alloc: Global, root: L) -> Result<List<Entry<L>>, NoMemory>
    ensures { IfOk result (λ entries. entries ≡ fresh root None ∷ []) }
{
    let mut entries = List::new(alloc);
    entries.push(Entry {
        label: root,
        origin: None,
        turn: Turn::Fresh,
        gone: None,
    })?;
    Ok(entries)
}

/// The first pass, which has the whole weight and knows no entry of these cells.
fn first_pass_of(alloc: Global, cells: u32, weight: u32) -> Result<PassState, NoMemory>
    ensures { IfOk result (λ pass. pass ≡ first_pass cells weight) }
{
    let mut numbers = List::new(alloc);
    numbers.push(0)?;
    Ok(PassState {
        weight,
        numbers,
        claims: List::new(alloc),
        meetings: List::new(alloc),
        known: List::from_vec(repeated(alloc, 0, cells)?),
        held: None,
        ticket: false,
        over: false,
        ended: false,
    })
}
