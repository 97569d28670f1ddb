//! What a listing makes of a row.

ghost use Rattle.std.specs.Prelude.{◌≡◌, ◌<◌, All, IsTrue, length};
ghost use Rattle.concatenate.specs.Fit.{MayJoin};
ghost use Rattle.walk_list.specs.Listings.{ListingFits, table_at};
ghost use Rattle.route_labels.specs.Fit.{FieldFits};
ghost use Rattle.route_labels.specs.Meaning.{setting_of};
ghost use Rattle.listing_tests.specs.Rows.{HaveRests, RowFits, field_in};

use crate::fits::{leasts_near, may_all_join};
use crate::row::Row;
use crate::trees::{check_listed, check_tree, completes};
use certificate::Trie;
use path_graph::List;
use route_labels::Field;
use std::alloc::Global;
use std::process::Abort;
use std::test::Fail;
use test_models::blocks::numbers;
use walk_list::{Listed, ListedWalk, list_walks, listed_walks};

/// What the labels of a graph are made from.
fn field_of<'a>(row: &Row<'a>, graph: u32) -> Field<'a>
    requires row { RowFits row.now }
    requires graph { graph < length row.now.model.now.graphs }
    ensures field { result ≡ field_in row.now graph }
    ensures fits { FieldFits result }
{
    Field {
        model: row.model,
        graph,
        spot: row.spot,
        priced: row.priced,
        near: row.near,
        cuts: row.cuts,
        y: row.weights,
    }
}

/// Whether the labels of rests of a graph may be joined.
fn may_rests(row: &Row, graph: usize) -> bool
    requires row { RowFits row.now }
    requires graph { graph < length row.now.model.now.graphs }
    requires count { length row.now.tables.now ≡ length row.now.model.now.graphs }
    ensures { IsTrue result → All (MayJoin (setting_of (field_in row.now graph))) (table_at row.now.tables.now graph).back }
{
    may_all_join(
        field_of(row, graph as u32),
        row.tables[graph].back.as_slice(),
    )
}

/// Whether there is a table for each graph, whose labels of rests may be joined.
fn have_rests(row: &Row) -> bool
    requires { RowFits row.now }
    ensures { IsTrue result → HaveRests row.now }
{
    let model = row.model;
    if row.tables.len() != model.graphs.len() {
        return false;
    }
    for graph in 0..model.graphs.len() {
        if !may_rests(row, graph) {
            return false;
        }
    }
    true
}

/// The listing of a row, where the parts of its tables fit, with the walks of its trees where they are whole.
fn listed(alloc: Global, row: &Row, z: i64, limit: u32) -> Result<(Listed, List<ListedWalk>), Fail>
    requires { RowFits row.now }
{
    if !have_rests(row) {
        return Err(Fail::new("labels that may not be joined"));
    }
    if !leasts_near(row.tables) {
        return Err(Fail::new("leasts out of range"));
    }
    with_walks(alloc, row, z, limit)
}

/// The same of a row of which this is known.
fn with_walks(
    alloc: Global,
    row: &Row,
    z: i64,
    limit: u32,
) -> Result<(Listed, List<ListedWalk>), Fail>
    requires { ListingFits row.now.model.now row.now.spot.now row.now.priced.now row.now.near.now row.now.cuts.now row.now.weights.now
        row.now.tables.now }
{
    let made = list_walks(
        alloc,
        row.model,
        row.spot,
        row.priced,
        row.near,
        row.cuts,
        row.weights,
        row.tables,
        z,
        limit,
    );
    match made {
        Listed::Tries(tries) => {
            let walks = listed_walks(
                alloc,
                row.model,
                row.spot,
                row.priced,
                row.near,
                row.cuts,
                row.weights,
                row.tables,
                tries.as_slice(),
            )?;
            Ok((Listed::Tries(tries), walks))
        }
        made => Ok((made, List::new(alloc))),
    }
}

/// The trees of the row, and what listings make of it. A line `lists` or `wall` has a cost to beat, a limit, and the numbers
/// of lines of the trees that come.
pub fn check_row<R: Abort>(
    rt: &R,
    alloc: Global,
    row: &Row,
    tries: &[Trie],
    said: &str,
) -> Result<(), Fail>
    requires { RowFits row.now }
{
    let model = row.model;
    if model.graphs.len() != tries.len() || model.graphs.len() != row.tables.len() {
        return Err(Fail::new("not one tree for each graph"));
    }
    for (g, trie) in tries.iter().enumerate() {
        let back = row.tables[g].back.as_slice();
        check_tree(rt, alloc, field_of(row, g as u32), back, trie, said)?;
    }
    for line in said.lines() {
        if let Some(rest) = line.strip_prefix("lists ") {
            check_listing(rt, alloc, row, true, rest, said)?;
        } else if let Some(rest) = line.strip_prefix("wall ") {
            check_listing(rt, alloc, row, false, rest, said)?;
        }
    }
    Ok(())
}

/// One listing against its line.
fn check_listing<R: Abort>(
    rt: &R,
    alloc: Global,
    row: &Row,
    whole: bool,
    line: &str,
    said: &str,
) -> Result<(), Fail>
    requires { RowFits row.now }
{
    let numbers = numbers(alloc, line)?;
    let (Some(z), Some(limit)) = (numbers.first(), numbers.get(1)) else {
        return Err(Fail::new("a listing without a limit"));
    };
    let (made, walks) = listed(alloc, row, i64::from(*z), *limit)?;
    match made {
        Listed::Memory => Err(Fail::new("no memory")),
        Listed::Tries(tries) => {
            assert!(rt; whole, "{said}");
            check_lines(rt, &tries, numbers.as_slice(), said)?;
            check_listed(rt, alloc, walks.as_slice(), said)?;
            check_complete(rt, alloc, row, &tries, said)
        }
        Listed::Wall(tries) => {
            assert!(rt; !whole, "{said}");
            check_lines(rt, &tries, numbers.as_slice(), said)
        }
    }
}

/// The trees stand in order, and have so many lines.
fn check_lines<R: Abort>(
    rt: &R,
    tries: &List<Trie>,
    numbers: &[u32],
    said: &str,
) -> Result<(), Fail> {
    assert_eq!(rt; Some(tries.len()), numbers.len().checked_sub(2), "{said}");
    for (g, lines) in numbers.iter().skip(2).enumerate() {
        let trie = tries.as_slice().get(g).ok_or("a tree that is missing")?;
        assert_eq!(rt; trie.graph as usize, g, "{said}");
        assert_eq!(rt; trie.steps.len(), *lines as usize, "{said}");
    }
    Ok(())
}

/// Each tree is complete by the room of the checker.
fn check_complete<R: Abort>(
    rt: &R,
    alloc: Global,
    row: &Row,
    tries: &List<Trie>,
    said: &str,
) -> Result<(), Fail>
    requires { RowFits row.now }
{
    let model = row.model;
    if model.graphs.len() != tries.len() || model.graphs.len() != row.tables.len() {
        return Err(Fail::new("not one tree for each graph"));
    }
    for (g, trie) in tries.as_slice().iter().enumerate() {
        let back = row.tables[g].back.as_slice();
        let complete = completes(alloc, field_of(row, g as u32), back, trie, said)?;
        assert!(rt; complete, "{said}");
    }
    Ok(())
}
