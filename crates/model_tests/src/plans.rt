//! What is found of plans, which arcs are walks, and the costs of boxes.

ghost use Rattle.std.specs.Prelude.{IfOk, ◌≤◌};
ghost use Rattle.route_model.specs.Verdicts.{IsCounted};

use model_text::read_model;
use path_graph::{List, is_walk};
use route_model::{Model, Plan, Taken, Verdict, box_costs, judge};
use std::alloc::{AllocError, Global};
use std::process::Abort;
use std::test::Fail;
use test_models::blocks::{Block, block_of, numbers};
use test_models::texts;

/// Models, each with plans of one path: its graph, its count and its arcs, what is found, and why.
const VERDICTS: &str = "# Four vertices without packing sets. The walks cost 6, 8, 9 and 12.
vrpmodel 1
var 0 2 3
var 0 2 4
var 0 2 2
var 0 2 5
var 0 2 3
var 0 2 4
row 1 1 0 1 3 1
row 1 1 1 1 2 1
graph 4 0 3 0 2 1 0
vertex - 0 2
vertex - 0 2
vertex - 0 2
vertex - 0 2
arc 0 1 1 0
arc 0 2 1 1
arc 1 2 1 2
arc 2 1 1 3
arc 1 3 0 4
arc 2 3 0 5
end
0 1 0 2 5 | fine 9 | the walk of both
0 1 1 3 4 | fine 12 | the other way round
0 1 0 5 | walk 0 | arcs that don't meet
0 1 0 2 | walk 0 | not to the sink
0 1 0 2 6 | walk 0 | an arc that is not there
0 1 5 | walk 0 | not from the source
0 1 | walk 0 | no arc
0 0 0 2 5 | walk 0 | count 0
1 1 0 2 5 | walk 0 | an unknown graph
0 3 0 2 5 | count 0 | too many paths
0 2 0 2 5 | row 0 | each visited twice
0 1 0 4 | row 1 | the first alone

# The same with narrow windows.
vrpmodel 1
var 0 2 3
var 0 2 4
var 0 2 2
var 0 2 5
var 0 2 3
var 0 2 4
row 1 1 0 1 3 1
row 1 1 1 1 2 1
graph 4 0 3 0 2 1 0
vertex - 0 1
vertex - 0 1
vertex - 0 1
vertex - 0 1
arc 0 1 1 0
arc 0 2 1 1
arc 1 2 1 2
arc 2 1 1 3
arc 1 3 0 4
arc 2 3 0 5
end
0 1 0 2 5 | walk 0 | beyond the windows

# The same with packing sets.
vrpmodel 1
var 0 2 3
var 0 2 4
var 0 2 2
var 0 2 5
var 0 2 3
var 0 2 4
row 1 1 0 1 3 1
row 1 1 1 1 2 1
sets 2
graph 4 0 3 0 2 1 0
vertex - 0 2
vertex 0 0 2
vertex 1 0 2
vertex - 0 2
arc 0 1 1 0
arc 0 2 1 1
arc 1 2 1 2
arc 2 1 1 3
arc 1 3 0 4
arc 2 3 0 5
end
0 2 0 2 5 | packing 0 | each set visited twice

# One arc, which three paths must take.
vrpmodel 1
var 3 3 -2
graph 2 0 1 0 5 1 0
vertex - 0 1
vertex - 0 1
arc 0 1 1 0
end
0 2 0 | variable 0 | a variable below its box
0 3 0 | fine -6 | as often as it must be

# Two graphs of one arc each, of which a row wants both.
vrpmodel 1
var 1 1 5
var 0 1 2
row 2 2 0 1 1 1
graph 2 0 1 0 1 1 0
vertex - 0 1
vertex - 0 1
arc 0 1 1 0
graph 2 0 1 0 1 1 0
vertex - 0 1
vertex - 0 1
arc 0 1 1 1
end
1 2 0 | count 1 | too many paths of the second graph
0 1 0 | row 0 | one graph alone
";

/// The plan of one path.
fn lone_path(alloc: Global, graph: u32, count: u32, arcs: &[u32]) -> Result<Plan, AllocError>
    requires { count ≤ 4096 }
    ensures { IfOk result (λ plan. IsCounted plan) }
{
    let arcs = List::from_vec(Vec::from_slice(alloc, arcs)?);
    let mut paths = Vec::new(alloc);
    paths.push(Taken { graph, count, arcs })?;
    Ok(Plan {
        paths: List::from_vec(paths),
    })
}

/// The plan of a graph, a count and arcs.
fn plan_of(alloc: Global, text: &str) -> Result<Plan, Fail>
    ensures { IfOk result (λ plan. IsCounted plan) }
{
    let numbers = numbers(alloc, text)?;
    let [graph, count, arcs @ ..] = numbers.as_slice() else {
        return Err(Fail::new("a path without a graph and a count"));
    };
    if *count > 4_096 {
        return Err(Fail::new("a path with a count beyond the limit"));
    }
    Ok(lone_path(alloc, *graph, *count, arcs)?)
}

/// A verdict in words.
fn words_of(verdict: Verdict) -> (&'static str, i64) {
    match verdict {
        Verdict::Fine { cost } => ("fine", cost),
        Verdict::NotWalk(number) => ("walk", i64::from(number)),
        Verdict::Count(number) => ("count", i64::from(number)),
        Verdict::Packing(number) => ("packing", i64::from(number)),
        Verdict::VarBox(number) => ("variable", i64::from(number)),
        Verdict::RowBox(number) => ("row", i64::from(number)),
    }
}

/// What is found of the plan of a graph, a count and arcs, in words.
fn found_of(alloc: Global, model: &Model, path: &str) -> Result<(&'static str, i64), Fail> {
    let plan = plan_of(alloc, path)?;
    Ok(words_of(judge(model, &plan)))
}

/// What is said of a plan, as `walk 0`.
fn said_of(text: &str) -> Result<(&str, i64), Fail> {
    let (word, number) = text.split_once(' ').ok_or("a lone word")?;
    Ok((word, number.parse::<i64>()?))
}

/// The first two cells of a row of three.
fn cells_of(row: &str) -> Result<(&str, &str), Fail> {
    let (cells, _) = row.rsplit_once(" | ").ok_or("a row without a name")?;
    Ok(cells.split_once(" | ").ok_or("a row without a verdict")?)
}

/// Compares what is found of the plan of a row.
fn compare<R: Abort>(rt: &R, alloc: Global, model: &Model, row: &str) -> Result<(), Fail> {
    let (path, said) = cells_of(row)?;
    let (word, number) = said_of(said)?;
    let (found, found_number) = found_of(alloc, model, path)?;
    assert_eq!(rt; found, word, "{row}");
    assert_eq!(rt; found_number, number, "{row}");
    Ok(())
}

/// Compares what is found of the plans of a block's rows.
fn compare_all<R: Abort>(rt: &R, alloc: Global, block: &Block<'_>) -> Result<(), Fail> {
    let model = short_model(alloc, block.model.as_slice())?;
    for row in block.said.lines() {
        compare(rt, alloc, &model, row)?;
    }
    Ok(())
}

/// The model of a text that is not too long.
fn short_model(alloc: Global, text: &[u8]) -> Result<Model, Fail> {
    if text.len() >= 10_000 {
        return Err(Fail::new("a text is too long"));
    }
    Ok(read_model(alloc, text)?)
}

#[test]
fn verdicts(rt: HostRuntime) -> Result<(), Fail> {
    for text in VERDICTS.split("\n\n") {
        let block = block_of(rt.alloc(), text)?;
        compare_all(&rt, rt.alloc(), &block)?;
    }
    Ok(())
}

#[test]
fn costs_and_walks(rt: HostRuntime) -> Result<(), Fail> {
    let model = short_model(rt.alloc(), texts::PAYS.as_bytes())?;
    // Between nine times -1 and once -4, and nothing; one more than that.
    assert_eq!(rt; box_costs(&model), (-13, 1));
    assert_eq!(rt; model.graphs.len(), 1);
    for (arcs, walks) in [
        ([0].as_slice(), true),
        ([1].as_slice(), true),
        ([].as_slice(), false),
        ([0, 1].as_slice(), false),
    ] {
        assert_eq!(rt; is_walk(model.graphs.at(0), arcs), walks);
    }
    Ok(())
}
