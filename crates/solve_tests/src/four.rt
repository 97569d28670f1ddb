//! Models of four vertices, of which the two in the middle are to be visited once each.

use crate::search::search;
use std::test::Fail;

/// The models, each with its least plan.
const FOUR: &str =
    "# Packing sets. The walks cost 6, 8, 9 and 12; those of cost 9 and 12 visit both.
vrpmodel 1
var 0 2 3
var 0 2 4
var 0 2 2
var 0 2 5
var 0 2 3
var 0 2 4
row 1 1 0 1 3 1
row 1 1 1 1 2 1
sets 2
graph 4 0 3 0 2 1 0
vertex - 0 2
vertex 0 0 2
vertex 1 0 2
vertex - 0 2
arc 0 1 1 0
arc 0 2 1 1
arc 1 2 1 2
arc 2 1 1 3
arc 1 3 0 4
arc 2 3 0 5
end
optimal 9
path 0 1 0 2 5

# Narrow windows, so that no walk visits both.
vrpmodel 1
var 0 2 3
var 0 2 4
var 0 2 2
var 0 2 5
var 0 2 3
var 0 2 4
row 1 1 0 1 3 1
row 1 1 1 1 2 1
sets 2
graph 4 0 3 0 2 1 0
vertex - 0 1
vertex 0 0 1
vertex 1 0 1
vertex - 0 1
arc 0 1 1 0
arc 0 2 1 1
arc 1 2 1 2
arc 2 1 1 3
arc 1 3 0 4
arc 2 3 0 5
end
optimal 14
path 0 1 0 4
path 0 1 1 5

# Narrow windows and one path at the most.
vrpmodel 1
var 0 2 3
var 0 2 4
var 0 2 2
var 0 2 5
var 0 2 3
var 0 2 4
row 1 1 0 1 3 1
row 1 1 1 1 2 1
sets 2
graph 4 0 3 0 1 1 0
vertex - 0 1
vertex 0 0 1
vertex 1 0 1
vertex - 0 1
arc 0 1 1 0
arc 0 2 1 1
arc 1 2 1 2
arc 2 1 1 3
arc 1 3 0 4
arc 2 3 0 5
end
infeasible

# No rows and no paths.
vrpmodel 1
var 0 2 3
var 0 2 4
var 0 2 2
var 0 2 5
var 0 2 3
var 0 2 4
sets 2
graph 4 0 3 0 0 1 0
vertex - 0 2
vertex 0 0 2
vertex 1 0 2
vertex - 0 2
arc 0 1 1 0
arc 0 2 1 1
arc 1 2 1 2
arc 2 1 1 3
arc 1 3 0 4
arc 2 3 0 5
end
optimal 0

# Negative needs of a secondary resource.
vrpmodel 1
var 0 2 3
var 0 2 4
var 0 2 2
var 0 2 5
var 0 2 3
var 0 2 4
row 1 1 0 1 3 1
row 1 1 1 1 2 1
sets 2
graph 4 0 3 0 2 1 1
vertex - 0 2 -5 5
vertex 0 0 2 -5 5
vertex 1 0 2 -5 5
vertex - 0 2 -5 5
arc 0 1 1 -1 0
arc 0 2 1 -1 1
arc 1 2 1 -1 2
arc 2 1 1 -1 3
arc 1 3 0 -1 4
arc 2 3 0 -1 5
end
optimal 9
path 0 1 0 2 5

# A second main resource, of which nothing may be consumed, and the cheaper order consumes some.
vrpmodel 1
var 0 2 3
var 0 2 4
var 0 2 2
var 0 2 5
var 0 2 3
var 0 2 4
row 1 1 0 1 3 1
row 1 1 1 1 2 1
sets 2
graph 4 0 3 0 2 2 0
vertex - 0 2 0 0
vertex 0 0 2 0 0
vertex 1 0 2 0 0
vertex - 0 2 0 0
arc 0 1 1 0 0
arc 0 2 1 0 1
arc 1 2 1 1 2
arc 2 1 1 0 3
arc 1 3 0 0 4
arc 2 3 0 0 5
end
optimal 12
path 0 1 1 3 4

# Both in one packing set, though each is to be entered.
vrpmodel 1
var 0 2 3
var 0 2 4
var 0 2 2
var 0 2 5
var 0 2 3
var 0 2 4
row 1 1 0 1 3 1
row 1 1 1 1 2 1
sets 1
graph 4 0 3 0 2 1 0
vertex - 0 2
vertex 0 0 2
vertex 0 0 2
vertex - 0 2
arc 0 1 1 0
arc 0 2 1 1
arc 1 2 1 2
arc 2 1 1 3
arc 1 3 0 4
arc 2 3 0 5
end
infeasible
";

#[test]
fn four_vertices(rt: HostRuntime) -> Result<(), Fail> {
    search(&rt, rt.alloc(), FOUR)
}
