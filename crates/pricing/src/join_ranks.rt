ghost use Rattle.std.specs.Prelude.{◌≡◌, ◌<◌, ℤ, length};
ghost use Rattle.path_graph.specs.Parts.{arc_at};
ghost use Rattle.route_labels.specs.Fit.{FieldFits};
ghost use Rattle.route_labels.specs.Meaning.{setting_of};
ghost use Rattle.concatenate.specs.Fit.{MayJoin};
ghost use Rattle.pricing.specs.Halves.{IsPairIn};
ghost use Rattle.pricing.specs.JoinedWalks.{MayAllJoin, MayCellsJoin};

use crate::half_table::HalfPair;
use crate::ranking::number;
use concatenate::join_cost;
use label_core::{Entry, Table};
use path_graph::NoMemory;
use route_labels::{Field, Label};
use std::alloc::Global;

/// A join of a half pair: its cost, its arc, and its two labels by cell and index. Joins are ordered by these, in this order.
#[derive(Clone, Copy, Debug, PartialEq, Eq, PartialOrd, Ord)]
pub(crate) struct Joined {
    pub cost: i128,
    pub arc: u32,
    pub fore: (u32, u32),
    pub back: (u32, u32),
}

/// For each kept label of a partial walk its cheapest join, where that costs less than nothing.
pub(crate) fn joins_of(
    alloc: Global,
    field: &Field,
    pair: &HalfPair,
) -> Result<Vec<Joined>, NoMemory>
    requires field { FieldFits field.now }
    requires pair { (threshold : ℤ) × IsPairIn (setting_of field.now) threshold pair.now }
{
    joins_between(alloc, field, &pair.fore, &pair.back)
}

/// The same of two tables.
fn joins_between(
    alloc: Global,
    field: &Field,
    fore: &Table<Label>,
    back: &Table<Label>,
) -> Result<Vec<Joined>, NoMemory>
    requires field { FieldFits field.now }
    requires fore { MayCellsJoin (setting_of field.now) fore.now.cells }
    requires back { MayCellsJoin (setting_of field.now) back.now.cells }
{
    let mut joins = Vec::new(alloc);
    for (cell, entries) in fore.cells.as_slice().iter().enumerate() {
        push_joins(&mut joins, field, number(cell)?, entries.as_slice(), back)?;
    }
    Ok(joins)
}

/// Appends those of the labels of a cell.
fn push_joins(
    joins: &mut Vec<Joined>,
    field: &Field,
    cell: u32,
    entries: &[Entry<Label>],
    back: &Table<Label>,
) -> Result<(), NoMemory>
    requires field { FieldFits field.now }
    requires fore { MayAllJoin (setting_of field.now) entries.now }
    requires back { MayCellsJoin (setting_of field.now) back.now.cells }
{
    for (index, entry) in entries.iter().enumerate() {
        if entry.gone.is_none() {
            if let Some(join) = cheapest_join(field, (cell, number(index)?), &entry.label, back) {
                joins.push(join)?;
            }
        }
    }
    Ok(())
}

/// The cheapest join of a label with one of a rest, where it costs less than nothing.
fn cheapest_join(
    field: &Field,
    place: (u32, u32),
    label: &Label,
    back: &Table<Label>,
) -> Option<Joined>
    requires field { FieldFits field.now }
    requires label { MayJoin (setting_of field.now) label.now }
    requires back { MayCellsJoin (setting_of field.now) back.now.cells }
{
    let graph = field.path_graph();
    let mut best = None;
    for k in 0..graph.out_count(label.vertex) {
        let arc = graph.out_arc(label.vertex, k);
        let head = graph.arc(arc).head;
        if (head as usize) < back.cells.len() {
            let rests = back.cells.at(head as usize).as_slice();
            best = lesser(best, cheapest_over(field, place, label, arc, rests));
        }
    }
    best
}

/// The cheapest of the joins of a label over an arc out of its vertex, where it costs less than nothing.
fn cheapest_over(
    field: &Field,
    place: (u32, u32),
    label: &Label,
    arc: u32,
    rests: &[Entry<Label>],
) -> Option<Joined>
    requires field { FieldFits field.now }
    requires label { MayJoin (setting_of field.now) label.now }
    requires rests { MayAllJoin (setting_of field.now) rests.now }
    requires arc { arc < length (setting_of field.now).graph.arcs }
    requires tail { (arc_at (setting_of field.now).graph.arcs arc).tail ≡ label.now.vertex }
{
    let head = field.path_graph().arc(arc).head;
    let mut best = None;
    for (index, rest) in rests.iter().enumerate() {
        if rest.gone.is_none() && rest.label.vertex == head {
            let cost = join_cost(field, label, arc, &rest.label);
            best = lesser(best, cheap_join(cost, place, arc, head, index));
        }
    }
    best
}

/// A join that costs less than nothing.
fn cheap_join(
    cost: Option<i128>,
    fore: (u32, u32),
    arc: u32,
    cell: u32,
    index: usize,
) -> Option<Joined> {
    let index = u32::try_from(index).ok()?;
    let cost = cost?;
    if cost >= 0 {
        return None;
    }
    Some(Joined {
        cost,
        arc,
        fore,
        back: (cell, index),
    })
}

/// The cheaper of two joins.
fn lesser(best: Option<Joined>, other: Option<Joined>) -> Option<Joined> {
    match (best, other) {
        (None, other) => other,
        (best, None) => best,
        (Some(best), Some(other)) => Some(if other.cost < best.cost { other } else { best }),
    }
}
