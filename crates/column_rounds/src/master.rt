//! The master at a place: a linear program over the walks of the pool that use no shut arc.

ghost use Rattle.std.specs.Prelude.{◌≡◌, All, IfOk, length};
ghost use Rattle.path_graph.specs.Within.{IsWithin};
ghost use Rattle.route_model.specs.declared.limits.TheConstants.{MAX_MULT};
ghost use Rattle.route_model.specs.Places.{SpotFits};
ghost use Rattle.column_rounds.specs.Columns.{AreColumnsOf};
ghost use Rattle.column_rounds.specs.Masters.{IsMaster, row_count};

use crate::columns::Columns;
use crate::mults::mult_of;
use crate::sides::sides_of;
use crate::task::Task;
use column_pool::Pool;
use fixed_master::{Column, Duals, Entry, Side, solve_master};
use path_graph::{List, NoMemory};
use route_model::{Model, Mult, Spot, is_shut};
use std::alloc::Global;

/// The most pivots of the simplex for one master.
const MOST_PIVOTS: u32 = 20_000;

/// The best multipliers over the walks that are known, the weights of these, by the numbers of the walks, and the sum of
/// weight times entry for each row. A walk without number is the marker of the last basis.
#[derive(Drop)]
pub(crate) struct Master {
    pub mult: Mult,
    pub numbers: Vec<Option<u32>>,
    pub weights: Vec<i64>,
    pub values: Vec<i64>,
    pub rows: Vec<u32>,
}

/// Solves the master at a place.
pub(crate) fn master_at(alloc: Global, task: &Task, columns: &Columns) -> Result<Master, NoMemory>
    requires spot { SpotFits task.now.model.now task.now.spot.now }
    requires columns { AreColumnsOf task.now.model.now columns.now }
    ensures { IfOk result (IsMaster task.now.model.now) }
{
    let sides = sides_of(alloc, task)?;
    let numbers = open_walks(alloc, task, columns)?;
    let program = program_of(alloc, task.model, columns, numbers.as_slice())?;
    let duals = solved(alloc, sides.as_slice(), program.as_slice())?;
    let weights = duals.weights.into_vec();
    let values = values_of(alloc, sides.len(), program.as_slice(), weights.as_slice())?;
    let rows = rows_of(alloc, duals.mult.as_slice())?;
    let mult = mult_of(alloc, task.model, duals.mult.as_slice())?;
    Ok(Master {
        mult,
        numbers,
        weights,
        values,
        rows,
    })
}

/// Multipliers and weights of the master.
fn solved(alloc: Global, sides: &[Side], program: &[Column]) -> Result<Duals, NoMemory>
    ensures count { IfOk result (λ duals. length duals.mult ≡ length sides.now) }
    ensures each { IfOk result (λ duals. All (IsWithin MAX_MULT) duals.mult) }
{
    let duals = solve_master(alloc, sides, program, MOST_PIVOTS)?;
    Ok(duals)
}

/// The walks of the last basis, the marker, and the others: those that use no shut arc.
fn open_walks(alloc: Global, task: &Task, columns: &Columns) -> Result<Vec<Option<u32>>, NoMemory>
    requires spot { SpotFits task.now.model.now task.now.spot.now }
{
    let mut is_basic = vec![in alloc; false; columns.pool.len() as usize]?;
    let mut numbers = Vec::new(alloc);
    for number in columns.basis.as_slice() {
        if is_open_walk(task, &columns.pool, *number) {
            mark(&mut is_basic, *number);
            numbers.push(Some(*number))?;
        }
    }
    numbers.push(None)?;
    for number in 0..columns.pool.len() {
        if !is_marked(is_basic.as_slice(), number) && is_open_walk(task, &columns.pool, number) {
            numbers.push(Some(number))?;
        }
    }
    Ok(numbers)
}

/// Marks a number, if it has a mark.
fn mark(marks: &mut Vec<bool>, number: u32) {
    if let Some(mark) = marks.get_mut(number as usize) {
        *mark = true;
    }
}

/// Whether a number is marked.
fn is_marked(marks: &[bool], number: u32) -> bool {
    marks.get(number as usize).copied().unwrap_or(false)
}

/// Whether a walk uses no shut arc.
fn is_open_walk(task: &Task, pool: &Pool, number: u32) -> bool
    requires spot { SpotFits task.now.model.now task.now.spot.now }
{
    if number >= pool.len() {
        return false;
    }
    let (graph, arcs) = pool.walk(number);
    arcs.iter()
        .all(|arc| is_open_arc(task.model, task.spot, graph, *arc))
}

/// Whether an arc is there and not shut.
fn is_open_arc(model: &Model, spot: &Spot, graph: u32, arc: u32) -> bool
    requires spot { SpotFits model.now spot.now }
{
    graph < model.graphs.len() as u32
        && arc < model.graphs.at(graph as usize).arc_count()
        && !is_shut(model, spot, graph, arc)
}

/// The columns of walks; that of the marker names the rows of the last basis.
fn program_of(
    alloc: Global,
    model: &Model,
    columns: &Columns,
    numbers: &[Option<u32>],
) -> Result<Vec<Column>, NoMemory>
    requires { AreColumnsOf model.now columns.now }
{
    let mut program = Vec::new(alloc);
    for number in numbers {
        program.push(column_of(alloc, model, columns, *number)?)?;
    }
    Ok(program)
}

/// The column of a walk, or the marker.
fn column_of(
    alloc: Global,
    model: &Model,
    columns: &Columns,
    number: Option<u32>,
) -> Result<Column, NoMemory>
    requires { AreColumnsOf model.now columns.now }
{
    let _sets = model.sets;
    match number {
        Some(number) if number < columns.pool.len() => columns.pool.column(alloc, number, &[]),
        _ => marker(alloc, columns.rows.as_slice()),
    }
}

/// The column that parts the last basis from the other walks.
fn marker(alloc: Global, rows: &[u32]) -> Result<Column, NoMemory> {
    let mut entries = Vec::new(alloc);
    for row in rows {
        entries.push(Entry {
            row: *row,
            value: 0,
        })?;
    }
    Ok(Column {
        cost: 0,
        entries: List::from_vec(entries),
    })
}

/// The sum of weight times entry for each row.
fn values_of(
    alloc: Global,
    count: usize,
    program: &[Column],
    weights: &[i64],
) -> Result<Vec<i64>, NoMemory>
    ensures { IfOk result (λ values. length values.items ≡ count) }
{
    let mut values = vec![in alloc; 0; count]?;
    for (column, weight) in program.iter().zip(weights) {
        if *weight != 0 {
            add_entries(&mut values, column.entries.as_slice(), *weight);
        }
    }
    Ok(values)
}

/// Adds a weight times entries.
fn add_entries(values: &mut Vec<i64>, entries: &[Entry], weight: i64)
    ensures { length values.new.items ≡ length values.old.items }
{
    for entry in entries {
        let row = entry.row as usize;
        if row < values.len() {
            values[row] = values[row].saturating_add(weight.saturating_mul(entry.value));
        }
    }
}

/// The rows whose multiplier is not 0.
fn rows_of(alloc: Global, mult: &[i64]) -> Result<Vec<u32>, NoMemory> {
    let mut rows = Vec::new(alloc);
    for (row, mult) in mult.iter().enumerate() {
        if *mult != 0 && row < u32::MAX as usize {
            rows.push(row as u32)?;
        }
    }
    Ok(rows)
}
