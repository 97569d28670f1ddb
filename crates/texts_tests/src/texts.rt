//! A text of a model.

/// Two graphs: one with two main resources and a secondary one, and one whose sink is its first vertex.
pub const WIDE: &str = "vrpmodel 1
var 0 1 2
var 1 3 -7
var 0 0 0
row * 4 0 -1 2 3
row -2 * 1 5
sets 3
graph 3 0 2 0 4 2 1
vertex - 0 5 0 9 -3 3
vertex 2 1 5 2 9 -3 3
vertex - 0 5 0 9 -3 3
arc 0 1 1 0 -2 0 1
arc 1 2 0 1 2
arc 0 2 0 0 0 2
graph 2 1 0 1 1 1 0
vertex - 0 1
vertex - 0 1
arc 1 0 1 2
end
";
