//! Whether the trees of a row are complete, and the walks that they list.

ghost use Rattle.std.specs.Prelude.{◌≡◌, ◌<◌, All, length};
ghost use Rattle.concatenate.specs.Fit.{MayJoin};
ghost use Rattle.route_labels.specs.Fit.{FieldFits};
ghost use Rattle.route_labels.specs.Meaning.{setting_of};

use crate::fits::may_all_join;
use certificate::Trie;
use list_check::{is_complete, walks_of};
use path_graph::List;
use route_labels::{Field, Label};
use std::alloc::Global;
use std::process::Abort;
use std::test::Fail;
use test_models::blocks::numbers;
use test_places::said::after;
use walk_list::ListedWalk;

/// The number or `none` at a place of a line.
fn limit_at(said: &str, graph: usize) -> Result<Option<i128>, Fail> {
    let line = after(said, "limits ").ok_or("no limits")?;
    let word = line
        .split_whitespace()
        .nth(graph)
        .ok_or("no limit of the graph")?;
    if word == "none" {
        return Ok(None);
    }
    Ok(Some(i128::from(word.parse::<i64>()?)))
}

/// Whether a tree is complete.
pub fn completes(
    alloc: Global,
    field: Field,
    back: &[Label],
    trie: &Trie,
    said: &str,
) -> Result<bool, Fail>
    requires { FieldFits field }
{
    if !may_all_join(field, back) || trie.steps.len() >= 4_294_967_296 {
        return Err(Fail::new("labels out of range"));
    }
    let limit = limit_at(said, field.graph as usize)?;
    Ok(is_complete(alloc, &field, back, limit, trie)?)
}

/// The walks of a tree that is complete, against those that are said.
pub fn check_tree<R: Abort>(
    rt: &R,
    alloc: Global,
    field: Field,
    back: &[Label],
    trie: &Trie,
    said: &str,
) -> Result<(), Fail>
    requires { FieldFits field }
{
    if !may_all_join(field, back) || trie.steps.len() >= 4_294_967_296 {
        return Err(Fail::new("labels out of range"));
    }
    let limit = limit_at(said, field.graph as usize)?;
    let complete = is_complete(alloc, &field, back, limit, trie)?;
    let line = after(said, "complete ").ok_or("no word on completeness")?;
    let expected = line.split_whitespace().nth(field.graph as usize);
    assert_eq!(rt;
        Some(complete),
        expected.map(|word| word == "yes"),
        "{said}"
    );
    if complete {
        let walks = walks_of(alloc, &field, trie)?;
        check_walks(rt, alloc, &walks, field.graph, said)?;
    }
    Ok(())
}

/// What stands behind `walks` in the line of a graph.
fn walks_of_line(said: &str, graph: usize) -> Option<&str> {
    said.lines()
        .filter_map(|line| line.strip_prefix("walks"))
        .nth(graph)
}

/// The walks against those that are said, with `/` before each.
fn check_walks<R: Abort>(
    rt: &R,
    alloc: Global,
    walks: &List<List<u32>>,
    graph: u32,
    said: &str,
) -> Result<(), Fail> {
    let line = walks_of_line(said, graph as usize).ok_or("no walks of the graph")?;
    let mut count = 0;
    for (k, part) in line.split("/").skip(1).enumerate() {
        let walk = walks.as_slice().get(k).ok_or("a walk that is missing")?;
        let expected = numbers(alloc, part)?;
        assert_eq!(rt; walk.as_slice(), expected.as_slice(), "{said}");
        count = k;
    }
    assert!(rt; walks.is_empty() || walks.len() - 1 == count, "{said}");
    Ok(())
}

/// The walks of a listing against those that are said of all graphs, in their order.
pub fn check_listed<R: Abort>(
    rt: &R,
    alloc: Global,
    walks: &[ListedWalk],
    said: &str,
) -> Result<(), Fail> {
    let mut left = walks.iter();
    let lines = said.lines().filter_map(|line| line.strip_prefix("walks"));
    for (graph, line) in lines.enumerate() {
        for part in line.split("/").skip(1) {
            let walk = left.next().ok_or("a listed walk that is missing")?;
            let expected = numbers(alloc, part)?;
            assert_eq!(rt; walk.graph as usize, graph, "{said}");
            assert_eq!(rt; walk.arcs.as_slice(), expected.as_slice(), "{said}");
        }
    }
    assert!(rt; left.next().is_none(), "{said}");
    Ok(())
}
