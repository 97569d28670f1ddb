ghost use Rattle.std.specs.Prelude.{◌≡◌, ◌↔◌, IsTrue, ℕ, ◌-◌, ◌<◌, ◌≤◌, ◌^◌, ℤ, List, length, min, sum_by, All, IfSome};
ghost use Rattle.path_graph.specs.Walk.{GraphParts};
ghost use Rattle.path_graph.specs.Within.{IsWithin};
ghost use Rattle.route_model.specs.Fit.{VarFits, VarsFit, SidesFit, Ascends, TermFits, RowFits, RowsFit, IsDeclared, GraphFits, GraphsFit, MapFits, GraphMapsFit, MapsFit, ModelFits};

use crate::coefs::coefs_fit;
use crate::limits::{
    MAX_ALL_ARCS, MAX_COEF, MAX_COST, MAX_GRAPHS, MAX_MAPPED, MAX_ROWS, MAX_SIDE, MAX_TERMS,
    MAX_VALUE, MAX_VARS,
};
use crate::parts::{Row, RowTerm, Var};
use path_graph::{Graph, List, MAX_PATHS, MAX_SETS};

/// Whether the parts keep the limits and orders of a model, but for the cost range.
///
/// At most 30,000 variables with boxes in 0..1,000,000; at most 5,000 rows and 1,000,000 terms; at most 512 packing
/// sets, 64 graphs, 100,000 arcs and 4,096 paths in all. Every number is declared, and the variables of a row and of
/// an arc ascend. `maps` has one list for each arc of each graph. The time is linear but for one pass over the terms
/// for each 1,024 variables. It takes no memory.
pub fn model_fits(
    vars: &[Var],
    rows: &[Row],
    sets: u16,
    graphs: &[Graph],
    maps: &List<List<List<u32>>>,
) -> bool
    ensures { IsTrue result ↔ ModelFits (record {
      vars = vars.now;
      rows = rows.now;
      sets = sets;
      graphs = graphs.now;
      maps = maps.now;
    }) }
{
    if !vars_fit(vars) || !rows_fit(vars.len(), rows) || sets > MAX_SETS {
        return false;
    }
    graphs_fit(sets, graphs) && maps_fit(vars.len(), graphs, maps)
}

fn vars_fit(vars: &[Var]) -> bool
    ensures { IsTrue result ↔ VarsFit vars.now }
{
    vars.len() <= MAX_VARS && vars.iter().all(|var| var_fits(var))
}

fn var_fits(var: &Var) -> bool
    ensures { IsTrue result ↔ VarFits var.now }
{
    let box_fits = 0 <= var.low && var.low <= var.high && var.high <= MAX_VALUE;
    box_fits && is_within(MAX_COST, var.cost)
}

/// Whether a number is so near to 0.
fn is_within(limit: u64, number: i64) -> bool
    ensures { IsTrue result ↔ IsWithin limit number }
{
    number.unsigned_abs() <= limit
}

fn rows_fit(count: usize, rows: &[Row]) -> bool
    ensures { IsTrue result ↔ RowsFit count rows.now }
{
    if rows.len() > MAX_ROWS || !rows.iter().all(|row| row_fits(count, row)) {
        return false;
    }
    term_count(rows) <= MAX_TERMS && coefs_fit(count, rows)
}

fn row_fits(count: usize, row: &Row) -> bool
    ensures { IsTrue result ↔ RowFits count row.now }
{
    let terms = row.terms.as_slice();
    sides_fit(row.low, row.high)
        && terms.iter().all(|term| term_fits(count, term))
        && terms_ascend(terms)
}

fn sides_fit(low: Option<i64>, high: Option<i64>) -> bool
    ensures { IsTrue result ↔ SidesFit low high }
{
    match (low, high) {
        (None, None) => true,
        (Some(low), None) => side_fits(low),
        (None, Some(high)) => side_fits(high),
        (Some(low), Some(high)) => side_fits(low) && side_fits(high) && low <= high,
    }
}

fn side_fits(side: i64) -> bool
    ensures { IsTrue result ↔ IsWithin MAX_SIDE side }
{
    is_within(MAX_SIDE, side)
}

fn term_fits(count: usize, term: &RowTerm) -> bool
    ensures { IsTrue result ↔ TermFits count term.now }
{
    (term.var as usize) < count && is_within(MAX_COEF, term.coef)
}

fn terms_ascend(terms: &[RowTerm]) -> bool
    ensures { IsTrue result ↔ Ascends (λ t. t.var) terms.now }
{
    for place in 1..terms.len() {
        if terms[place - 1].var >= terms[place].var {
            return false;
        }
    }
    true
}

/// How many terms the rows have, or the greatest `usize` where that is less.
fn term_count(rows: &[Row]) -> usize
    ensures { result ≡ min (sum_by (λ row. length row.terms) rows.now) (2 ^ 64 - 1) }
{
    let mut count: usize = 0;
    for row in rows {
        count = count.saturating_add(row.terms.len());
    }
    count
}

fn graphs_fit(sets: u16, graphs: &[Graph]) -> bool
    ensures { IsTrue result ↔ GraphsFit sets graphs.now }
{
    if graphs.len() > MAX_GRAPHS || !graphs.iter().all(|graph| graph_fits(sets, graph)) {
        return false;
    }
    arc_total(graphs) <= MAX_ALL_ARCS && path_total(graphs) <= u64::from(MAX_PATHS)
}

fn graph_fits(sets: u16, graph: &Graph) -> bool
    ensures { IsTrue result ↔ GraphFits sets graph.now }
{
    let _ends = graph.ends();
    for v in 0..graph.vertex_count() {
        if !is_declared(sets, graph.vertex(v).set) {
            return false;
        }
    }
    true
}

fn is_declared(sets: u16, set: Option<u16>) -> bool
    ensures { IsTrue result ↔ IfSome set (λ s. s < sets) }
{
    match set {
        None => true,
        Some(set) => set < sets,
    }
}

/// How many arcs the graphs have, or the greatest `u64` where that is less.
fn arc_total(graphs: &[Graph]) -> u64
    ensures { result ≡ min (sum_by (λ g. length g.arcs) graphs.now) (2 ^ 64 - 1) }
{
    let mut total: u64 = 0;
    for graph in graphs {
        total = total.saturating_add(u64::from(graph.arc_count()));
    }
    total
}

/// How many paths the graphs may have, or the greatest `u64` where that is less.
pub fn path_total(graphs: &[Graph]) -> u64
    ensures { result ≡ min (sum_by (λ g. g.ends.high) graphs.now) (2 ^ 64 - 1) }
{
    let mut total: u64 = 0;
    for graph in graphs {
        total = total.saturating_add(u64::from(graph.ends().high));
    }
    total
}

fn maps_fit(count: usize, graphs: &[Graph], maps: &List<List<List<u32>>>) -> bool
    ensures { IsTrue result ↔ MapsFit count graphs.now maps.now }
{
    if maps.len() != graphs.len() {
        return false;
    }
    for (g, graph) in graphs.iter().enumerate() {
        if !graph_maps_fit(count, graph, maps.at(g)) {
            return false;
        }
    }
    true
}

fn graph_maps_fit(count: usize, graph: &Graph, maps: &List<List<u32>>) -> bool
    ensures { IsTrue result ↔ GraphMapsFit count graph.now maps.now }
{
    maps.len() == graph.arc_count() as usize
        && maps
            .as_slice()
            .iter()
            .all(|vars| map_fits(count, vars.as_slice()))
}

fn map_fits(count: usize, vars: &[u32]) -> bool
    ensures { IsTrue result ↔ MapFits count vars.now }
{
    vars.len() <= MAX_MAPPED && vars.iter().all(|var| (*var as usize) < count) && vars_ascend(vars)
}

fn vars_ascend(vars: &[u32]) -> bool
    ensures { IsTrue result ↔ Ascends (λ j. j) vars.now }
{
    for place in 1..vars.len() {
        if vars[place - 1] >= vars[place] {
            return false;
        }
    }
    true
}
