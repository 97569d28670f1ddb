//! Several graphs, packing sets, and arcs that consume nothing.

use crate::search::search;
use std::test::Fail;

/// The models, each with its least plan.
const SETS: &str = "# Two graphs of one arc each, of which a row wants both.
vrpmodel 1
var 1 1 5
var 0 1 2
row 2 2 0 1 1 1
graph 2 0 1 0 1 1 0
vertex - 0 1
vertex - 0 1
arc 0 1 1 0
graph 2 0 1 0 1 1 0
vertex - 0 1
vertex - 0 1
arc 0 1 1 1
end
optimal 7
path 0 1 0
path 1 1 0

# Three customers of which two fit a path, so that two paths are needed, of cost 2 each.
vrpmodel 1
var 1 1 0
var 1 1 0
var 1 1 0
var 0 3 2
sets 3
graph 5 0 4 0 3 1 0
vertex - 0 2
vertex 0 0 2
vertex 1 0 2
vertex 2 0 2
vertex - 0 2
arc 0 1 1 0 3
arc 0 2 1 1 3
arc 0 3 1 2 3
arc 1 2 1 1
arc 1 3 1 2
arc 2 1 1 0
arc 2 3 1 2
arc 3 1 1 0
arc 3 2 1 1
arc 1 4 0
arc 2 4 0
arc 3 4 0
end
optimal 4 by any

# Two paths, by a packing set at the cost of 1 or past it at 5. The cheapest plan visits the set twice.
vrpmodel 1
var 0 2 1
var 0 2 5
sets 1
graph 4 0 3 2 2 1 0
vertex - 0 1
vertex 0 0 1
vertex - 0 1
vertex - 0 1
arc 0 1 1 0
arc 0 2 1 1
arc 1 3 0
arc 2 3 0
end
optimal 6
path 0 1 0 2
path 0 1 1 3

# Two graphs with a path each, by one packing set at the cost of 1, or direct at 4 and 3.
vrpmodel 1
var 0 1 1
var 0 1 4
var 0 1 1
var 0 1 3
sets 1
graph 3 0 2 1 1 1 0
vertex - 0 1
vertex 0 0 1
vertex - 0 1
arc 0 1 1 0
arc 1 2 0
arc 0 2 0 1
graph 3 0 2 1 1 1 0
vertex - 0 1
vertex 0 0 1
vertex - 0 1
arc 0 1 1 2
arc 1 2 0
arc 0 2 0 3
end
optimal 4
path 0 1 0 1
path 1 1 2

# A way whose arcs consume nothing, beside a direct one.
vrpmodel 1
var 0 1 2
var 0 1 9
sets 1
graph 3 0 2 1 1 1 0
vertex - 0 1
vertex 0 0 1
vertex - 0 1
arc 0 1 0 0
arc 1 2 0
arc 0 2 0 1
end
optimal 2
path 0 1 0 1
";

#[test]
fn graphs_and_sets(rt: HostRuntime) -> Result<(), Fail> {
    search(&rt, rt.alloc(), SETS)
}
