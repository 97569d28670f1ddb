//! Models for the pool, as texts.

/// Two graphs, in both of which arc 0 alone is a walk. In the second, the walk by the arcs 1, 2, 3 uses variable 0 by
/// two arcs and visits set 1 twice.
pub const TWO_GRAPHS: &str = "vrpmodel 1
var 0 9 3
var 0 9 4
var 0 9 -2
row 0 20 0 2 1 -1
row * 9 2 5
row 0 20 0 1 1 2 2 -4
sets 2
graph 2 0 1 0 2 1 0
vertex - 0 2
vertex - 0 2
arc 0 1 1 0 2
graph 4 0 3 0 2 1 0
vertex - 0 9
vertex 1 0 9
vertex 1 0 9
vertex - 0 9
arc 0 3 1 1
arc 0 1 1 0
arc 1 2 1 0 1
arc 2 3 1 2
end
";

/// A chain of eighteen vertices with two arcs from each to the next: 131,072 walks.
pub const CHAIN: &str = "vrpmodel 1
var 0 9 1
var 0 9 -1
row 0 9 0 1 1 1
sets 1
graph 18 0 17 0 9 1 0
vertex - 0 99
vertex 0 0 99
vertex - 0 99
vertex - 0 99
vertex - 0 99
vertex - 0 99
vertex - 0 99
vertex - 0 99
vertex - 0 99
vertex - 0 99
vertex - 0 99
vertex - 0 99
vertex - 0 99
vertex - 0 99
vertex - 0 99
vertex - 0 99
vertex - 0 99
vertex - 0 99
arc 0 1 1 0
arc 0 1 1 1
arc 1 2 1
arc 1 2 1
arc 2 3 1
arc 2 3 1
arc 3 4 1
arc 3 4 1
arc 4 5 1
arc 4 5 1
arc 5 6 1
arc 5 6 1
arc 6 7 1
arc 6 7 1
arc 7 8 1
arc 7 8 1
arc 8 9 1
arc 8 9 1
arc 9 10 1
arc 9 10 1
arc 10 11 1
arc 10 11 1
arc 11 12 1
arc 11 12 1
arc 12 13 1
arc 12 13 1
arc 13 14 1
arc 13 14 1
arc 14 15 1
arc 14 15 1
arc 15 16 1
arc 15 16 1
arc 16 17 1
arc 16 17 1 0
end
";
