ghost use Rattle.std.specs.Prelude.{◌≡◌, ◌≤ℤ◌, false, IfOk};
ghost use Rattle.route_model.specs.Costs.{cost_above_all};
ghost use Rattle.made_nodes.specs.Better.{IsBetter};
ghost use Rattle.search_tree.specs.Search.{IsSearch, slots_in};
ghost use Rattle.column_rounds.specs.Columns.{AreColumnsOf};
ghost use Rattle.solve_run.specs.Limits.{LimitsFit};
ghost use Rattle.solve_run.specs.Rounds.{HasOpenAt, IsFull, IsPlainAtRoot, IsRound, IsWholeAtRoot, IsWithin, Passes};
ghost use Rattle.solve_run.specs.Told.{EndsAs};

use crate::choosing::{least_open, place_at};
use crate::finish::{certified, finished};
use crate::growing::grow_round;
use crate::outcome::{Limits, Outcome};
use crate::told::node_limit;
use column_rounds::Columns;
use open_tree::{first_open, made_count};
use path_graph::NoMemory;
use route_model::{Model, Plan};
use search_steps::{Plain, plain_tree};
use search_tree::{Grown, Search, begin, retest, with_best};
use std::alloc::Global;

/// What a round of a search comes to.
#[derive(Drop)]
pub(crate) enum Next {
    Goes(Search),
    Ends(Outcome),
}

/// All nodes are tested against the cost to beat.
fn test_round(
    alloc: Global,
    model: &Model,
    limits: &Limits,
    search: Search,
) -> Result<Next, NoMemory>
    requires search { IsWithin model.now limits.now search }
    requires untested { search.is_tested ≡ false }
    ensures { IfOk result (IsRound model.now limits.now search) }
{
    Ok(Next::Goes(retest(alloc, model, search)?))
}

/// The plain tree at the root, against z.
fn plain_at_root(alloc: Global, model: &Model, limits: &Limits, z: i64) -> Result<Plain, NoMemory>
    requires limits { LimitsFit limits.now }
    requires cost { z ≤ℤ cost_above_all model.now }
    ensures { IfOk result (IsPlainAtRoot model.now z limits.now) }
{
    let fresh = begin(alloc, model)?;
    let slots = fresh.slots.as_slice();
    let Some(at) = first_open(slots) else {
        unreachable!()
    };
    let root = place_at(slots, at);
    Ok(plain_tree(alloc, model, root, z, limits.labels, limits.nodes as usize))
}

/// The plain tree is whole.
fn whole_round(
    alloc: Global,
    model: &Model,
    search: Search,
    grown: Grown,
) -> Result<Outcome, NoMemory>
    requires search { IsSearch model.now search }
    requires whole { IsWholeAtRoot model.now search.z grown }
    ensures { IfOk result (EndsAs model.now) }
{
    let best = grown.best.or(search.best);
    certified(alloc, model, grown.z, best, grown.nodes)
}

/// The plain tree was left: with a better plan the search goes on, and without one it stops.
fn left_round(
    alloc: Global,
    model: &Model,
    limits: &Limits,
    search: Search,
    less: i64,
    found: Option<Plan>,
) -> Result<Next, NoMemory>
    requires search { IsFull model.now limits.now search }
    requires better { IsBetter model.now search.z found less }
    requires passed { Passes model.now limits.now }
    ensures { IfOk result (IsRound model.now limits.now search) }
{
    let _sets = model.sets;
    match found {
        Some(plan) => Ok(Next::Goes(with_best(search, less, plan))),
        None => Ok(Next::Ends(node_limit(alloc, model, search)?)),
    }
}

/// As many nodes as may be are made, and tested: the plain tree is tried.
fn plain_round(
    alloc: Global,
    model: &Model,
    limits: &Limits,
    search: Search,
) -> Result<Next, NoMemory>
    requires limits { LimitsFit limits.now }
    requires search { IsFull model.now limits.now search }
    ensures { IfOk result (IsRound model.now limits.now search) }
{
    match plain_at_root(alloc, model, limits, search.z)? {
        Plain::Whole(grown) => Ok(Next::Ends(whole_round(alloc, model, search, grown)?)),
        Plain::Left(less, found) => left_round(alloc, model, limits, search, less, found),
        Plain::Memory => Err(NoMemory),
    }
}

/// A round of a search with an open place.
fn open_round(
    alloc: Global,
    model: &Model,
    limits: &Limits,
    search: Search,
    at: usize,
    columns: &mut Columns,
) -> Result<Next, NoMemory>
    requires limits { LimitsFit limits.now }
    requires search { IsWithin model.now limits.now search }
    requires place { HasOpenAt (slots_in search) at }
    requires columns { AreColumnsOf model.now columns.old }
    ensures round { IfOk result (IsRound model.now limits.now search) }
    ensures columns { AreColumnsOf model.now columns.new }
{
    let made = made_count(search.slots.as_slice());
    let most = limits.nodes as usize;
    if made < most {
        return grow_round(alloc, model, limits, search, at, most - made, columns);
    }
    if !search.is_tested {
        return test_round(alloc, model, limits, search);
    }
    plain_round(alloc, model, limits, search)
}

/// A round of a search: where no place is open it is finished; or else a tree is grown at the open place of the least value,
/// while fewer nodes than may be are made; or the nodes are tested, or the plain tree is tried.
pub(crate) fn round(
    alloc: Global,
    model: &Model,
    limits: &Limits,
    search: Search,
    columns: &mut Columns,
) -> Result<Next, NoMemory>
    requires limits { LimitsFit limits.now }
    requires search { IsWithin model.now limits.now search }
    requires columns { AreColumnsOf model.now columns.old }
    ensures round { IfOk result (IsRound model.now limits.now search) }
    ensures columns { AreColumnsOf model.now columns.new }
{
    match least_open(search.slots.as_slice()) {
        None => Ok(Next::Ends(finished(alloc, model, search)?)),
        Some(at) => open_round(alloc, model, limits, search, at, columns),
    }
}
