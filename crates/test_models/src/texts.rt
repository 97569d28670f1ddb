//! Texts of models for the rows.

/// Four vertices, of which the two in the middle are to be visited once each. The walks cost 6, 8, 9 and 12.
pub const FOUR: &str = "vrpmodel 1
var 0 2 3
var 0 2 4
var 0 2 2
var 0 2 5
var 0 2 3
var 0 2 4
row 1 1 0 1 3 1
row 1 1 1 1 2 1
graph 4 0 3 0 2 1 0
vertex - 0 2
vertex - 0 2
vertex - 0 2
vertex - 0 2
arc 0 1 1 0
arc 0 2 1 1
arc 1 2 1 2
arc 2 1 1 3
arc 1 3 0 4
arc 2 3 0 5
end
";

/// The same with windows 0..1, so that no walk visits both.
pub const NARROW: &str = "vrpmodel 1
var 0 2 3
var 0 2 4
var 0 2 2
var 0 2 5
var 0 2 3
var 0 2 4
row 1 1 0 1 3 1
row 1 1 1 1 2 1
graph 4 0 3 0 2 1 0
vertex - 0 1
vertex - 0 1
vertex - 0 1
vertex - 0 1
arc 0 1 1 0
arc 0 2 1 1
arc 1 2 1 2
arc 2 1 1 3
arc 1 3 0 4
arc 2 3 0 5
end
";

/// The same with one path at the most, so that no plan visits both.
pub const ONE_PATH: &str = "vrpmodel 1
var 0 2 3
var 0 2 4
var 0 2 2
var 0 2 5
var 0 2 3
var 0 2 4
row 1 1 0 1 3 1
row 1 1 1 1 2 1
graph 4 0 3 0 1 1 0
vertex - 0 1
vertex - 0 1
vertex - 0 1
vertex - 0 1
arc 0 1 1 0
arc 0 2 1 1
arc 1 2 1 2
arc 2 1 1 3
arc 1 3 0 4
arc 2 3 0 5
end
";

/// Four vertices without rows and without paths.
pub const NO_PATHS: &str = "vrpmodel 1
var 0 2 3
var 0 2 4
var 0 2 2
var 0 2 5
var 0 2 3
var 0 2 4
graph 4 0 3 0 0 1 0
vertex - 0 2
vertex - 0 2
vertex - 0 2
vertex - 0 2
arc 0 1 1 0
arc 0 2 1 1
arc 1 2 1 2
arc 2 1 1 3
arc 1 3 0 4
arc 2 3 0 5
end
";

/// Four vertices, where the arc from the source to the first is dear.
pub const DEAR: &str = "vrpmodel 1
var 0 2 1000000000
var 0 2 4
var 0 2 2
var 0 2 5
var 0 2 3
var 0 2 4
row 1 1 0 1 3 1
row 1 1 1 1 2 1
graph 4 0 3 0 2 1 0
vertex - 0 2
vertex - 0 2
vertex - 0 2
vertex - 0 2
arc 0 1 1 0
arc 0 2 1 1
arc 1 2 1 2
arc 2 1 1 3
arc 1 3 0 4
arc 2 3 0 5
end
";

/// Four vertices, where the arc from the source to the first pays 3.
pub const PAYS_FIRST: &str = "vrpmodel 1
var 0 2 -3
var 0 2 4
var 0 2 2
var 0 2 5
var 0 2 3
var 0 2 4
row 1 1 0 1 3 1
row 1 1 1 1 2 1
graph 4 0 3 0 2 1 0
vertex - 0 2
vertex - 0 2
vertex - 0 2
vertex - 0 2
arc 0 1 1 0
arc 0 2 1 1
arc 1 2 1 2
arc 2 1 1 3
arc 1 3 0 4
arc 2 3 0 5
end
";

/// Four vertices, where the first is to be visited five times, which the boxes don't allow.
pub const UNMET: &str = "vrpmodel 1
var 0 2 3
var 0 2 4
var 0 2 2
var 0 2 5
var 0 2 3
var 0 2 4
row 5 5 0 1 3 1
row 1 1 1 1 2 1
graph 4 0 3 0 2 1 0
vertex - 0 2
vertex - 0 2
vertex - 0 2
vertex - 0 2
arc 0 1 1 0
arc 0 2 1 1
arc 1 2 1 2
arc 2 1 1 3
arc 1 3 0 4
arc 2 3 0 5
end
";

/// Two vertices and one arc, which three paths must take: variable 0 is 3, at cost -2 each.
pub const THREE_TIMES: &str = "vrpmodel 1
var 3 3 -2
graph 2 0 1 0 5 1 0
vertex - 0 1
vertex - 0 1
arc 0 1 1 0
end
";

/// Two vertices and two arcs that pay, of which at least two paths and at most three are taken.
/// The first pays 1 and the second 4; the second is taken at most once.
pub const PAYS: &str = "vrpmodel 1
var 0 9 -1
var 0 1 -4
graph 2 0 1 2 3 1 0
vertex - 0 1
vertex - 0 1
arc 0 1 1 0
arc 0 1 0 1
end
";

/// Four vertices, of which the two in the middle are to be visited once each and are in a packing set each.
pub const SETS: &str = "vrpmodel 1
var 0 2 3
var 0 2 4
var 0 2 2
var 0 2 5
var 0 2 3
var 0 2 4
row 1 1 0 1 3 1
row 1 1 1 1 2 1
sets 2
graph 4 0 3 0 2 1 0
vertex - 0 2
vertex 0 0 2
vertex 1 0 2
vertex - 0 2
arc 0 1 1 0
arc 0 2 1 1
arc 1 2 1 2
arc 2 1 1 3
arc 1 3 0 4
arc 2 3 0 5
end
";

/// Three customers in a packing set each, of which two fit a path. Each path costs 2.
pub const CUSTOMERS: &str = "vrpmodel 1
var 1 1 0
var 1 1 0
var 1 1 0
var 0 3 2
sets 3
graph 5 0 4 0 3 1 0
vertex - 0 2
vertex 0 0 2
vertex 1 0 2
vertex 2 0 2
vertex - 0 2
arc 0 1 1 0 3
arc 0 2 1 1 3
arc 0 3 1 2 3
arc 1 2 1 1
arc 1 3 1 2
arc 2 1 1 0
arc 2 3 1 2
arc 3 1 1 0
arc 3 2 1 1
arc 1 4 0
arc 2 4 0
arc 3 4 0
end
";

/// A chain with two arcs from each vertex to the next: sixteen walks, of which one keeps the boxes of four variables.
pub const SIXTEEN_WALKS: &str = "vrpmodel 1
var 1 1 0
var 1 1 0
var 1 1 0
var 1 1 0
var 0 4 1
graph 5 0 4 1 1 1 0
vertex - 0 0
vertex - 0 0
vertex - 0 0
vertex - 0 0
vertex - 0 0
arc 0 1 0
arc 0 1 0 0 4
arc 1 2 0
arc 1 2 0 1 4
arc 2 3 0
arc 2 3 0 2 4
arc 3 4 0
arc 3 4 0 3 4
end
";

/// Two graphs of one arc each, and a row that wants a path of each: the one costs 5 and the other 2.
pub const GRAPHS: &str = "vrpmodel 1
var 1 1 5
var 0 1 2
row 2 2 0 1 1 1
graph 2 0 1 0 1 1 0
vertex - 0 1
vertex - 0 1
arc 0 1 1 0
graph 2 0 1 0 1 1 0
vertex - 0 1
vertex - 0 1
arc 0 1 1 1
end
";

/// A depot, five customers with demands, at most three vehicles of capacity 5: the worked example of the README.
pub const FIVE_CUSTOMERS: &str = "vrpmodel 1
var 0 2 4
var 0 2 5
var 0 2 6
var 0 2 3
var 0 2 5
var 0 1 3
var 0 1 4
var 0 1 5
var 0 1 2
row 2 2 0 1 5 1
row 2 2 1 1 5 1 6 1
row 2 2 2 1 6 1 7 1
row 2 2 3 1 7 1 8 1
row 2 2 4 1 8 1
sets 5
graph 7 0 6 0 3 1 0
vertex - 0 5
vertex 0 0 5
vertex 1 0 5
vertex 2 0 5
vertex 3 0 5
vertex 4 0 5
vertex - 0 5
arc 0 1 2 0
arc 0 2 1 1
arc 0 3 3 2
arc 0 4 2 3
arc 0 5 1 4
arc 1 2 1 5
arc 2 1 2 5
arc 2 3 3 6
arc 3 2 1 6
arc 3 4 2 7
arc 4 3 3 7
arc 4 5 1 8
arc 5 4 2 8
arc 1 6 0 0
arc 2 6 0 1
arc 3 6 0 2
arc 4 6 0 3
arc 5 6 0 4
end
";

/// The same with time windows, which no path through both the second and the third customer keeps.
pub const TIME_WINDOWS: &str = "vrpmodel 1
var 0 2 4
var 0 2 5
var 0 2 6
var 0 2 3
var 0 2 5
var 0 1 3
var 0 1 4
var 0 1 5
var 0 1 2
row 2 2 0 1 5 1
row 2 2 1 1 5 1 6 1
row 2 2 2 1 6 1 7 1
row 2 2 3 1 7 1 8 1
row 2 2 4 1 8 1
sets 5
graph 7 0 6 0 3 1 1
vertex - 0 5 0 20
vertex 0 0 5 0 12
vertex 1 0 5 0 6
vertex 2 0 5 6 8
vertex 3 0 5 0 5
vertex 4 0 5 8 12
vertex - 0 5 0 20
arc 0 1 2 4 0
arc 0 2 1 5 1
arc 0 3 3 6 2
arc 0 4 2 3 3
arc 0 5 1 5 4
arc 1 2 1 3 5
arc 2 1 2 3 5
arc 2 3 3 4 6
arc 3 2 1 4 6
arc 3 4 2 5 7
arc 4 3 3 5 7
arc 4 5 1 2 8
arc 5 4 2 2 8
arc 1 6 0 4 0
arc 2 6 0 5 1
arc 3 6 0 6 2
arc 4 6 0 3 3
arc 5 6 0 5 4
end
";
