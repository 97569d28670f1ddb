ghost use Rattle.std.specs.Prelude.{◌≡◌, ◌+◌, ◌≤◌, ◌<◌, ◌∷◌, [], IfOk, length, map};
ghost use Rattle.std.specs.List.{range_with_len};
ghost use Rattle.path_graph.specs.Parts.{arcs_into};
ghost use Rattle.vrp_demo.specs.Generated.{term_of, row_into, rows_over, maps_of};

use path_graph::{Graph, List, NoMemory};
use route_model::{Row, RowTerm};
use std::alloc::Global;

/// The variables of the arcs into a vertex, each once.
fn terms_into(alloc: Global, graph: &Graph, v: u32) -> Result<List<RowTerm>, NoMemory>
    requires { v < length graph.now.vertices }
    ensures { IfOk result (λ terms. terms ≡ map term_of (arcs_into graph.now.arcs v)) }
{
    let mut terms = List::new(alloc);
    for k in 0..graph.in_count(v) {
        let var = graph.in_arc(v, k);
        terms.push(RowTerm { var, coef: 1 })?;
    }
    Ok(terms)
}

/// The row that a vertex is entered once.
fn row_into(alloc: Global, graph: &Graph, v: u32) -> Result<Row, NoMemory>
    requires { v < length graph.now.vertices }
    ensures { IfOk result (λ row. row ≡ row_into graph.now.arcs v) }
{
    let terms = terms_into(alloc, graph, v)?;
    Ok(Row {
        low: Some(1),
        high: Some(1),
        terms,
    })
}

/// The rows that each customer is entered once.
pub(crate) fn rows_over(alloc: Global, size: u32, graph: &Graph) -> Result<List<Row>, NoMemory>
    requires size { size ≤ 100 }
    requires vertices { length graph.now.vertices ≡ size + 2 }
    ensures { IfOk result (λ rows. rows ≡ rows_over size graph.now.arcs) }
{
    let mut rows = List::new(alloc);
    for customer in 1..size + 1 {
        rows.push(row_into(alloc, graph, customer)?)?;
    }
    Ok(rows)
}

/// The list of one number.
fn lone(alloc: Global, number: u32) -> Result<List<u32>, NoMemory>
    ensures { IfOk result (λ list. list ≡ number ∷ []) }
{
    let mut list = List::new(alloc);
    list.push(number)?;
    Ok(list)
}

/// The variable of each arc: that of the arc's number.
pub(crate) fn maps_of(alloc: Global, arcs: u32) -> Result<List<List<u32>>, NoMemory>
    ensures { IfOk result (λ maps. maps ≡ maps_of arcs) }
{
    let mut maps = List::new(alloc);
    for arc in 0..arcs {
        maps.push(lone(alloc, arc)?)?;
    }
    Ok(maps)
}
