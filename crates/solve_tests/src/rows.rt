//! Rows with an open side, and a variable without arcs.

use crate::search::search;
use std::test::Fail;

/// The models, each with its least plan.
const ROWS: &str = "# A variable that no arc maps, whose box doesn't hold 0.
vrpmodel 1
var 0 1 5
var 1 1 2
graph 2 0 1 0 1 1 0
vertex - 0 1
vertex - 0 1
arc 0 1 1 0
end
infeasible

# An arc that pays, under a row that is open below.
vrpmodel 1
var 0 9 -2
row * 2 0 1
graph 2 0 1 0 4 1 0
vertex - 0 1
vertex - 0 1
arc 0 1 1 0
end
optimal -4
path 0 2 0

# An arc that pays, under a row that is open above.
vrpmodel 1
var 0 9 -2
row -3 * 0 -1
graph 2 0 1 0 4 1 0
vertex - 0 1
vertex - 0 1
arc 0 1 1 0
end
optimal -6
path 0 3 0
";

#[test]
fn rows_and_variables(rt: HostRuntime) -> Result<(), Fail> {
    search(&rt, rt.alloc(), ROWS)
}
