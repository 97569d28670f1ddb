//! The tables and walks of a place, line by line: `tables` has a limit and the leasts, `wall` a limit and the graph with the
//! direction of a wall, `halves` a threshold and the leasts; `cheap` a graph, how many walks, and their arcs; `joined` a
//! graph, a threshold, how many walks, how many may visit one packing set, and their arcs.

ghost use Rattle.std.specs.Prelude.{◌≡◌, ◌≤◌, IfOk, IfSome, Some, false, slice_get};
ghost use Rattle.route_labels.specs.Fit.{FieldFits};
ghost use Rattle.route_labels.specs.Meaning.{setting_of};
ghost use Rattle.pricing.specs.Halves.{IsHalvesOutcome};
ghost use Rattle.pricing.specs.Outcomes.{AreTables, IsMadeIn, IsOutcome};
ghost use Rattle.pricing_tests.specs.Place.{ArePairs, FitsTogether, graphs_of, settings_of};

use crate::expected::{check_leasts, check_walks, check_wall};
use crate::parts::Place;
use label_core::Table;
use path_graph::List;
use pricing::{HalfPair, HalvesOut, TablesOut, cheap_walks, half_tables, joined_walks, tables};
use route_labels::{Field, Form, Label, ProofTable};
use route_model::Taken;
use std::alloc::Global;
use std::process::Abort;
use std::test::Fail;
use test_models::blocks::numbers;

/// The tables of a place, with at most so many labels in a list.
fn tables_of(alloc: Global, place: Place, both: bool, limit: u32) -> TablesOut
    requires fit { FitsTogether place }
    requires limit { 1 ≤ limit }
    ensures { IsOutcome (graphs_of place.entry) (settings_of place.entry) both limit result }
{
    tables(
        alloc,
        place.model,
        place.spot,
        place.priced,
        place.near,
        place.cuts,
        place.y,
        both,
        limit,
    )
}

/// A limit or a threshold, and what stands behind it.
fn headed(line: &str) -> Result<(i32, &str), Fail> {
    let (head, rest) = line.split_once(" / ").ok_or("a line that is too short")?;
    Ok((head.trim().parse::<i32>()?, rest))
}

/// A line `tables`: the leasts of tables in one direction, and in both.
fn check_tables<R: Abort>(rt: &R, alloc: Global, place: Place, line: &str) -> Result<(), Fail>
    requires { FitsTogether place }
{
    let (limit, leasts) = headed(line)?;
    let limit = limit.unsigned_abs().max(1);
    for both in [false, true] {
        match tables_of(alloc, place, both, limit) {
            TablesOut::Tables(tables, _) => {
                check_leasts(rt, tables.as_slice(), leasts)?;
                let form = if both { Form::Both } else { Form::Full };
                assert!(rt; tables.as_slice().iter().all(|t| t.form == form), "{line}");
                assert!(rt;
                    tables.as_slice().iter().all(|t| t.back.is_empty() != both),
                    "{line}"
                );
            }
            _ => return Err(Fail::new("no tables")),
        }
    }
    Ok(())
}

/// A line `wall`: the wall of a table of tables in both directions.
fn check_limit<R: Abort>(rt: &R, alloc: Global, place: Place, line: &str) -> Result<(), Fail>
    requires { FitsTogether place }
{
    let (limit, wall) = headed(line)?;
    check_wall(
        rt,
        &tables_of(alloc, place, true, limit.unsigned_abs().max(1)),
        wall,
    )
}

/// The half pairs of a place with one threshold.
fn halves_of(alloc: Global, place: Place, top: i32) -> Result<HalvesOut, Fail>
    requires { FitsTogether place }
    ensures { IfOk result (IsHalvesOutcome (graphs_of place.entry) (settings_of place.entry) 1000) }
{
    let model = place.model;
    let tops = vec![in alloc; top; model.graphs.len()]?;
    Ok(half_tables(
        alloc,
        place.model,
        place.spot,
        place.priced,
        place.near,
        place.cuts,
        place.y,
        tops.as_slice(),
        1_000,
    ))
}

/// A line `halves`: the leasts of half pairs.
fn check_halves<R: Abort>(rt: &R, alloc: Global, place: Place, line: &str) -> Result<(), Fail>
    requires { FitsTogether place }
{
    let (top, leasts) = headed(line)?;
    match halves_of(alloc, place, top)? {
        HalvesOut::Halves(tables, _) => check_leasts(rt, tables.as_slice(), leasts),
        _ => Err(Fail::new("no half pairs")),
    }
}

/// The number with this place in a line.
fn number_at(numbers: &[u32], place: usize) -> Result<u32, Fail> {
    Ok(*numbers.get(place).ok_or("a line that is too short")?)
}

/// A line `cheap`: the cheapest walks of a table.
fn check_cheap<R: Abort>(rt: &R, alloc: Global, place: Place, line: &str) -> Result<(), Fail>
    requires { FitsTogether place }
{
    let head = numbers(alloc, line.split(" / ").next().unwrap_or(line))?;
    let (graph, k) = (
        number_at(head.as_slice(), 0)?,
        number_at(head.as_slice(), 1)?,
    );
    let walks = cheap_of(alloc, place, graph, k)?;
    check_walks(rt, alloc, &walks, graph, line)
}

/// The cheapest walks of the table of a graph.
fn cheap_of(alloc: Global, place: Place, graph: u32, k: u32) -> Result<List<Taken>, Fail>
    requires { FitsTogether place }
{
    match tables_of(alloc, place, false, 1_000) {
        TablesOut::Tables(tables, made) => {
            cheap_in(alloc, place, tables.as_slice(), made.as_slice(), graph, k)
        }
        _ => Err(Fail::new("no tables")),
    }
}

/// The same, where the tables are there.
fn cheap_in(
    alloc: Global,
    place: Place,
    tables: &[ProofTable],
    made: &[Table<Label>],
    graph: u32,
    k: u32,
) -> Result<List<Taken>, Fail>
    requires { AreTables (graphs_of place) (settings_of place) false tables.now made.now }
{
    let Some(table) = item_at(tables, graph) else {
        return Err(Fail::new("an unknown graph"));
    };
    let Some(filled) = item_at(made, graph) else {
        return Err(Fail::new("an unknown graph"));
    };
    cheap_at(alloc, place, graph, table, filled, k)
}

/// The same of one table.
fn cheap_at(
    alloc: Global,
    place: Place,
    graph: u32,
    table: &ProofTable,
    made: &Table<Label>,
    k: u32,
) -> Result<List<Taken>, Fail>
    requires table { table.now.graph ≡ graph }
    requires made { IsMadeIn (settings_of place graph) made.now }
{
    let model = place.model;
    if table.graph as usize >= model.graphs.len() {
        return Err(Fail::new("an unknown graph"));
    }
    Ok(cheap_walks(alloc, model, table, made, k)?)
}

/// The item at a place.
fn item_at<T>(items: &[T], place: u32) -> Option<&T>
    ensures { IfSome result (λ item. slice_get items.now place ≡ Some item.now) }
{
    items.get(place as usize)
}

/// A line `joined`: the walks of the joins of a half pair.
fn check_joined<R: Abort>(rt: &R, alloc: Global, place: Place, line: &str) -> Result<(), Fail>
    requires { FitsTogether place }
{
    let head = numbers(alloc, line.split(" / ").next().unwrap_or(line))?;
    let head = head.as_slice();
    let (graph, top) = (number_at(head, 0)?, number_at(head, 1)?);
    let (k, most) = (number_at(head, 2)?, number_at(head, 3)?);
    let walks = joined_of(alloc, place, graph, i32::try_from(top)?, k, most)?;
    check_walks(rt, alloc, &walks, graph, line)
}

/// The walks of the joins of the half pair of a graph.
fn joined_of(
    alloc: Global,
    place: Place,
    graph: u32,
    top: i32,
    k: u32,
    most: u32,
) -> Result<List<Taken>, Fail>
    requires { FitsTogether place }
{
    let model = place.model;
    if graph as usize >= model.graphs.len() {
        return Err(Fail::new("an unknown graph"));
    }
    let field = Field {
        model,
        graph,
        spot: place.spot,
        priced: place.priced,
        near: place.near,
        cuts: place.cuts,
        y: place.y,
    };
    match halves_of(alloc, place, top)? {
        HalvesOut::Halves(_, pairs) => joined_in(alloc, place, &field, pairs.as_slice(), k, most),
        _ => Err(Fail::new("no half pairs")),
    }
}

/// The same, where the half pairs are there.
fn joined_in(
    alloc: Global,
    place: Place,
    field: &Field,
    pairs: &[HalfPair],
    k: u32,
    most: u32,
) -> Result<List<Taken>, Fail>
    requires field { FieldFits field.now }
    requires setting { setting_of field.now ≡ settings_of place field.now.graph }
    requires pairs { ArePairs (settings_of place) pairs.now }
{
    let _place = place;
    let pair = pairs.get(field.graph as usize).ok_or("an unknown graph")?;
    Ok(joined_walks(alloc, field, pair, k, most)?)
}

/// What one line says.
fn check_line<R: Abort>(rt: &R, alloc: Global, place: Place, line: &str) -> Result<(), Fail>
    requires { FitsTogether place }
{
    if let Some(rest) = line.strip_prefix("tables ") {
        return check_tables(rt, alloc, place, rest);
    }
    if let Some(rest) = line.strip_prefix("wall ") {
        return check_limit(rt, alloc, place, rest);
    }
    if let Some(rest) = line.strip_prefix("halves ") {
        return check_halves(rt, alloc, place, rest);
    }
    if let Some(rest) = line.strip_prefix("cheap ") {
        return check_cheap(rt, alloc, place, rest);
    }
    if let Some(rest) = line.strip_prefix("joined ") {
        return check_joined(rt, alloc, place, rest);
    }
    Ok(())
}

/// What all lines of a row say.
pub fn check_lines<R: Abort>(rt: &R, alloc: Global, place: Place, said: &str) -> Result<(), Fail>
    requires { FitsTogether place }
{
    for line in said.lines() {
        check_line(rt, alloc, place, line)?;
    }
    Ok(())
}
