//! Column generation at the root place of small models: the cost of the plan that it finds.

use column_rounds::{begin_columns, find_columns};
use model_text::read_model;
use multipliers::root_spot;
use route_model::{Model, box_costs};
use std::alloc::Global;
use std::process::Abort;
use std::test::Fail;
use test_models::blocks::block_of;

/// The limit of labels of a table.
const LABELS: u32 = 1_000;

/// Models, each with the cost of the plan that the rounds find.
const MODELS: &str = "# Two customers, whose best walk visits both.
vrpmodel 1
var 0 2 3
var 0 2 4
var 0 2 2
var 0 2 5
var 0 2 3
var 0 2 4
row 1 1 0 1 3 1
row 1 1 1 1 2 1
sets 2
graph 4 0 3 0 2 1 0
vertex - 0 2
vertex 0 0 2
vertex 1 0 2
vertex - 0 2
arc 0 1 1 0
arc 0 2 1 1
arc 1 2 1 2
arc 2 1 1 3
arc 1 3 0 4
arc 2 3 0 5
end
9

# Sixteen walks, of which one is a solution.
vrpmodel 1
var 1 1 0
var 1 1 0
var 1 1 0
var 1 1 0
var 0 4 1
graph 5 0 4 1 1 1 0
vertex - 0 0
vertex - 0 0
vertex - 0 0
vertex - 0 0
vertex - 0 0
arc 0 1 0
arc 0 1 0 0 4
arc 1 2 0
arc 1 2 0 1 4
arc 2 3 0
arc 2 3 0 2 4
arc 3 4 0
arc 3 4 0 3 4
end
4

# Three customers, whose best fractional plan takes half of three walks.
vrpmodel 1
var 1 1 0
var 1 1 0
var 1 1 0
var 0 3 2
sets 3
graph 5 0 4 0 3 1 0
vertex - 0 2
vertex 0 0 2
vertex 1 0 2
vertex 2 0 2
vertex - 0 2
arc 0 1 1 0 3
arc 0 2 1 1 3
arc 0 3 1 2 3
arc 1 2 1 1
arc 1 3 1 2
arc 2 1 1 0
arc 2 3 1 2
arc 3 1 1 0
arc 3 2 1 1
arc 1 4 0
arc 2 4 0
arc 3 4 0
end
none
";

/// The cost of the plan that is found at the root, if one is.
fn found_cost(alloc: Global, model: &Model) -> Result<Option<i64>, Fail> {
    let root = root_spot(alloc, model)?;
    let (_, above_all) = box_costs(model);
    let mut columns = begin_columns(alloc, model)?;
    let found = find_columns(alloc, model, &root, above_all, LABELS, &mut columns)?;
    match &found.best {
        None => Ok(None),
        Some(best) => Ok(Some(best.cost)),
    }
}

/// A block: a model and the cost.
fn check_block<R: Abort>(rt: &R, alloc: Global, text: &str) -> Result<(), Fail> {
    let block = block_of(alloc, text)?;
    if block.model.len() >= 10_000 {
        return Err(Fail::new("a text is too long"));
    }
    let model = read_model(alloc, block.model.as_slice())?;
    let cost = found_cost(alloc, &model)?;
    match block.said.trim() {
        "none" => assert!(rt; cost.is_none(), "a plan where none was expected"),
        said => assert_eq!(rt; cost, Some(said.parse::<i64>()?), "the cost of the plan"),
    }
    Ok(())
}

#[test]
fn plans_at_the_root(rt: HostRuntime) -> Result<(), Fail> {
    for text in MODELS.split("\n\n") {
        check_block(&rt, rt.alloc(), text)?;
    }
    Ok(())
}
