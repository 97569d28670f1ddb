//! Walks of negative reduced cost at a place, as joins of half pairs show them.

ghost use Rattle.std.specs.Prelude.{◌≡◌, ℤ, ◌<◌, ◌≤◌, [], All, IfOk, IfSome, length};
ghost use Rattle.route_model.specs.Places.{SpotFits};
ghost use Rattle.ng_sets.specs.Near.{FitsGraphs};
ghost use Rattle.multipliers.specs.Ranges.{MultFits};
ghost use Rattle.pricing.specs.Fields.{PlaceFits, setting_in};
ghost use Rattle.pricing.specs.Halves.{IsPairIn};
ghost use Rattle.column_rounds.specs.Walks.{ArePairsAt, ArePricesAt, IsWalkIn};

use crate::task::Task;
use multipliers::priced;
use ng_sets::Near;
use path_graph::{Graph, List, NoMemory};
use pricing::{HalfPair, HalvesOut, half_tables, joined_walks};
use route_labels::Field;
use route_model::{Mult, MultFault, Priced, Taken};
use std::alloc::Global;

/// The most walks that are taken of a graph in a round, and the most of them that visit the same packing set.
const MOST_WALKS: u32 = 60;

const MOST_OF_A_SET: u32 = 10;

/// The prices of multipliers; none where one needs an open side.
fn prices_of(alloc: Global, task: &Task, mult: &Mult) -> Result<Option<Priced>, NoMemory>
    requires spot { SpotFits task.now.model.now task.now.spot.now }
    requires mult { MultFits task.now.model.now mult.now }
    requires no_cuts { mult.now.cuts ≡ [] }
    ensures { IfOk result (λ prices. IfSome prices (ArePricesAt task.now.model.now task.now.spot.now)) }
{
    let spot = task.spot;
    match priced(alloc, task.model, &spot.boxes, &[], mult) {
        Ok(prices) => Ok(Some(prices)),
        Err(MultFault::OpenSide(_)) => Ok(None),
        Err(MultFault::Memory) => Err(NoMemory),
    }
}

/// The middle of what the labels of a graph use of the first main resource.
fn middle_of(graph: &Graph) -> i32 {
    let low = graph.vertex(graph.ends().source).windows[0].low;
    let high = graph.vertex(graph.ends().sink).windows[0].high;
    (low / 2).saturating_add(high / 2)
}

/// The middles of the graphs.
fn middles(alloc: Global, graphs: &[Graph]) -> Result<Vec<i32>, NoMemory>
    ensures { IfOk result (λ tops. length tops.items ≡ length graphs.now) }
{
    let mut tops = Vec::new(alloc);
    for graph in graphs {
        tops.push(middle_of(graph))?;
    }
    Ok(tops)
}

/// The walks that the half pair of a graph shows.
fn graph_walks(
    alloc: Global,
    task: &Task,
    near: &Near,
    prices: &Priced,
    graph: u32,
    pair: &HalfPair,
) -> Result<List<Taken>, NoMemory>
    requires place { PlaceFits task.now.model.now task.now.spot.now prices.now near.now [] [] }
    requires graph { graph < length task.now.model.now.graphs }
    requires pair { (threshold : ℤ) × IsPairIn (setting_in task.now.model.now task.now.spot.now prices.now near.now [] [] graph) threshold pair.now }
    ensures { IfOk result (All (IsWalkIn task.now.model.now)) }
{
    let field = Field {
        model: task.model,
        graph,
        spot: task.spot,
        priced: prices,
        near,
        cuts: &[],
        y: &[],
    };
    let walks = joined_walks(alloc, &field, pair, MOST_WALKS, MOST_OF_A_SET)?;
    Ok(walks)
}

/// The walks that half pairs show, graph by graph.
fn walks_of(
    alloc: Global,
    task: &Task,
    near: &Near,
    prices: &Priced,
    pairs: &[HalfPair],
) -> Result<Vec<Taken>, NoMemory>
    requires place { PlaceFits task.now.model.now task.now.spot.now prices.now near.now [] [] }
    requires pairs { ArePairsAt task.now.model.now task.now.spot.now prices.now near.now pairs.now }
    ensures { IfOk result (λ walks. All (IsWalkIn task.now.model.now) walks.items) }
{
    let model = task.model;
    let mut walks = Vec::new(alloc);
    for graph in 0..model.graphs.len() {
        let found = graph_walks(alloc, task, near, prices, graph as u32, &pairs[graph])?;
        walks.append(&mut found.into_vec())?;
    }
    Ok(walks)
}

/// What the half pairs of a place show; nothing where a table reached the limit.
fn walks_at(
    alloc: Global,
    task: &Task,
    near: &Near,
    prices: &Priced,
) -> Result<Option<Vec<Taken>>, NoMemory>
    requires place { PlaceFits task.now.model.now task.now.spot.now prices.now near.now [] [] }
    requires limit { 1 ≤ task.now.limit }
    ensures { IfOk result (λ shown. IfSome shown (λ walks. All (IsWalkIn task.now.model.now) walks.items)) }
{
    let model = task.model;
    let tops = middles(alloc, model.graphs.as_slice())?;
    let halves = half_tables(
        alloc,
        model,
        task.spot,
        prices,
        near,
        &[],
        &[],
        tops.as_slice(),
        task.limit,
    );
    match halves {
        HalvesOut::Memory => Err(NoMemory),
        HalvesOut::Wall(_, _, _) => Ok(None),
        HalvesOut::Halves(_, pairs) => {
            Ok(Some(walks_of(alloc, task, near, prices, pairs.as_slice())?))
        }
    }
}

/// Walks of negative reduced cost by multipliers; nothing where a multiplier needs an open side, or a table reached the limit.
pub(crate) fn shown_by(
    alloc: Global,
    task: &Task,
    near: &Near,
    mult: &Mult,
) -> Result<Option<Vec<Taken>>, NoMemory>
    requires spot { SpotFits task.now.model.now task.now.spot.now }
    requires near { FitsGraphs near.now task.now.model.now.graphs }
    requires mult { MultFits task.now.model.now mult.now }
    requires no_cuts { mult.now.cuts ≡ [] }
    requires limit { 1 ≤ task.now.limit }
    ensures { IfOk result (λ shown. IfSome shown (λ walks. All (IsWalkIn task.now.model.now) walks.items)) }
{
    match prices_of(alloc, task, mult)? {
        None => Ok(None),
        Some(prices) => walks_at(alloc, task, near, &prices),
    }
}
