//! What the lines of a row expect, against what was found.

use path_graph::List;
use pricing::TablesOut;
use route_labels::ProofTable;
use route_model::Taken;
use std::alloc::Global;
use std::process::Abort;
use std::test::Fail;
use test_models::blocks::numbers;

/// A cost, or none.
fn cost_or_none(word: &str) -> Result<Option<i128>, Fail> {
    if word == "none" {
        return Ok(None);
    }
    Ok(Some(i128::from(word.parse::<i64>()?)))
}

/// The leasts of the tables, one for each graph, in order.
pub fn check_leasts<R: Abort>(rt: &R, tables: &[ProofTable], words: &str) -> Result<(), Fail> {
    let mut graph = 0usize;
    for word in words.split_whitespace() {
        let table = tables.get(graph).ok_or("too few tables")?;
        assert_eq!(rt; table.graph as usize, graph, "{words}");
        assert_eq!(rt; table.least, cost_or_none(word)?, "{words}");
        graph += 1;
    }
    assert_eq!(rt; tables.len(), graph, "{words}");
    Ok(())
}

/// The wall of a graph in a direction.
pub fn check_wall<R: Abort>(rt: &R, out: &TablesOut, words: &str) -> Result<(), Fail> {
    let (number, direction) = words.split_once(' ').ok_or("a wall without its direction")?;
    match out {
        TablesOut::Wall(graph, is_backward, _) => {
            assert_eq!(rt; *graph, number.parse::<u32>()?, "{words}");
            assert_eq!(rt; *is_backward, direction == "backward", "{words}");
            Ok(())
        }
        _ => Err(Fail::new("no wall")),
    }
}

/// The walks of a graph, each taken once, against the arcs behind ` / ` in a line.
pub fn check_walks<R: Abort>(
    rt: &R,
    alloc: Global,
    walks: &List<Taken>,
    graph: u32,
    line: &str,
) -> Result<(), Fail> {
    let walks = walks.as_slice();
    let mut count = 0usize;
    for (place, part) in line.split(" / ").enumerate() {
        if place > 0 {
            let walk = walks.get(count).ok_or("too few walks")?;
            assert_eq!(rt; walk.graph, graph, "{line}");
            assert_eq!(rt; walk.count, 1, "{line}");
            assert_eq!(rt;
                walk.arcs.as_slice(),
                numbers(alloc, part)?.as_slice(),
                "{line}"
            );
            count += 1;
        }
    }
    assert_eq!(rt; walks.len(), count, "{line}");
    Ok(())
}
