//! The rows: models, multipliers on them, and what is expected.
//!
//! `vars`, `rows`, `sets` and `paths` have the multipliers, 0 for a kind that is not there, and `cut` that of a cut of
//! denominator 2 with its sets. `least` has a least for each graph. Expected are the `base`, the reduced costs of `arcs`,
//! `visits` and `starts`, or the `open` row; the `bound`, or the graph that shows that there is `none`; the greatest cost
//! that the bound `closes`; and the `limit` of a walk of a graph against a cost. The values are worked out by hand.

/// The rows, which stand apart by an empty line.
pub const ROWS: &str =
    "# Four vertices, with 4 and 5 on the rows: the terms are 4 + 5, and no walk costs less than 0.
vrpmodel 1
var 0 2 3
var 0 2 4
var 0 2 2
var 0 2 5
var 0 2 3
var 0 2 4
row 1 1 0 1 3 1
row 1 1 1 1 2 1
sets 2
graph 4 0 3 0 2 1 0
vertex - 0 2
vertex 0 0 2
vertex 1 0 2
vertex - 0 2
arc 0 1 1 0
arc 0 2 1 1
arc 1 2 1 2
arc 2 1 1 3
arc 1 3 0 4
arc 2 3 0 5
end
rows 262144 327680
base 589824
arcs -65536 -65536 -196608 65536 196608 262144
visits 0 0
starts 0
least 0
bound 589824
closes 9

# One path at the least, and 2 on the path count: the term is 2 more, and each walk costs 2 less.
vrpmodel 1
var 0 2 3
var 0 2 4
var 0 2 2
var 0 2 5
var 0 2 3
var 0 2 4
row 1 1 0 1 3 1
row 1 1 1 1 2 1
sets 2
graph 4 0 3 1 2 1 0
vertex - 0 2
vertex 0 0 2
vertex 1 0 2
vertex - 0 2
arc 0 1 1 0
arc 0 2 1 1
arc 1 2 1 2
arc 2 1 1 3
arc 1 3 0 4
arc 2 3 0 5
end
rows 262144 327680
paths 131072
base 720896
arcs -65536 -65536 -196608 65536 196608 262144
visits 0 0
starts -131072
least -131072
bound 458752
closes 7

# With -2 on the path count the high count 2 is taken: the term is 4 less, and each walk costs 2 more.
vrpmodel 1
var 0 2 3
var 0 2 4
var 0 2 2
var 0 2 5
var 0 2 3
var 0 2 4
row 1 1 0 1 3 1
row 1 1 1 1 2 1
sets 2
graph 4 0 3 1 2 1 0
vertex - 0 2
vertex 0 0 2
vertex 1 0 2
vertex - 0 2
arc 0 1 1 0
arc 0 2 1 1
arc 1 2 1 2
arc 2 1 1 3
arc 1 3 0 4
arc 2 3 0 5
end
rows 262144 327680
paths -131072
base 327680
arcs -65536 -65536 -196608 65536 196608 262144
visits 0 0
starts 131072
least 131072
bound 458752
closes 7

# A set is visited once at the most: -1 on set 0 takes 1, and 1 on set 1 nothing.
vrpmodel 1
var 0 2 3
var 0 2 4
var 0 2 2
var 0 2 5
var 0 2 3
var 0 2 4
row 1 1 0 1 3 1
row 1 1 1 1 2 1
sets 2
graph 4 0 3 0 2 1 0
vertex - 0 2
vertex 0 0 2
vertex 1 0 2
vertex - 0 2
arc 0 1 1 0
arc 0 2 1 1
arc 1 2 1 2
arc 2 1 1 3
arc 1 3 0 4
arc 2 3 0 5
end
sets -65536 65536
base -65536
arcs 196608 262144 131072 327680 196608 262144
visits 65536 -65536
starts 0

# An open high side, and a multiplier below 0 on it.
vrpmodel 1
var 0 2 3
var 0 2 4
var 0 2 2
var 0 2 5
var 0 2 3
var 0 2 4
row 1 * 0 1 3 1
row 1 1 1 1 2 1
sets 2
graph 4 0 3 0 2 1 0
vertex - 0 2
vertex 0 0 2
vertex 1 0 2
vertex - 0 2
arc 0 1 1 0
arc 0 2 1 1
arc 1 2 1 2
arc 2 1 1 3
arc 1 3 0 4
arc 2 3 0 5
end
rows -1 0
open 0

# Two open sides that are needed: the first is told.
vrpmodel 1
var 0 2 3
var 0 2 4
var 0 2 2
var 0 2 5
var 0 2 3
var 0 2 4
row 1 * 0 1 3 1
row * 1 1 1 2 1
sets 2
graph 4 0 3 0 2 1 0
vertex - 0 2
vertex 0 0 2
vertex 1 0 2
vertex - 0 2
arc 0 1 1 0
arc 0 2 1 1
arc 1 2 1 2
arc 2 1 1 3
arc 1 3 0 4
arc 2 3 0 5
end
rows -1 1
open 0

# Of two open sides the second alone is needed.
vrpmodel 1
var 0 2 3
var 0 2 4
var 0 2 2
var 0 2 5
var 0 2 3
var 0 2 4
row 1 * 0 1 3 1
row * 1 1 1 2 1
sets 2
graph 4 0 3 0 2 1 0
vertex - 0 2
vertex 0 0 2
vertex 1 0 2
vertex - 0 2
arc 0 1 1 0
arc 0 2 1 1
arc 1 2 1 2
arc 2 1 1 3
arc 1 3 0 4
arc 2 3 0 5
end
rows 1 1
open 1

# Two variables of an arc, and a cut: 2 on each visit and 2 on the cut give 6 - 2.
vrpmodel 1
var 1 1 0
var 1 1 0
var 1 1 0
var 0 3 2
sets 3
graph 5 0 4 0 3 1 0
vertex - 0 2
vertex 0 0 2
vertex 1 0 2
vertex 2 0 2
vertex - 0 2
arc 0 1 1 0 3
arc 0 2 1 1 3
arc 0 3 1 2 3
arc 1 2 1 1
arc 1 3 1 2
arc 2 1 1 0
arc 2 3 1 2
arc 3 1 1 0
arc 3 2 1 1
arc 1 4 0
arc 2 4 0
arc 3 4 0
end
vars 131072 131072 131072 0
cut 131072 0 1 2
base 262144
arcs 0 0 0 -131072 -131072 -131072 -131072 -131072 -131072 0 0 0
visits 0 0 0
starts 0
least 0
bound 262144
closes 4

# One path at the most, and 37 on both rows: 74 - 31.
vrpmodel 1
var 0 2 3
var 0 2 4
var 0 2 2
var 0 2 5
var 0 2 3
var 0 2 4
row 1 1 0 1 3 1
row 1 1 1 1 2 1
sets 2
graph 4 0 3 0 1 1 0
vertex - 0 1
vertex 0 0 1
vertex 1 0 1
vertex - 0 1
arc 0 1 1 0
arc 0 2 1 1
arc 1 2 1 2
arc 2 1 1 3
arc 1 3 0 4
arc 2 3 0 5
end
rows 2424832 2424832
base 4849664
arcs -2228224 -2162688 -2293760 -2097152 196608 262144
visits 0 0
starts 0
least -2031616
bound 2818048
closes 43

# No walk, and no path that must be: the terms alone are the bound, and every walk is above the limit.
vrpmodel 1
var 0 2 3
var 0 2 4
var 0 2 2
var 0 2 5
var 0 2 3
var 0 2 4
row 1 1 0 1 3 1
row 1 1 1 1 2 1
sets 2
graph 4 0 3 0 1 1 0
vertex - 0 1
vertex 0 0 1
vertex 1 0 1
vertex - 0 1
arc 0 1 1 0
arc 0 2 1 1
arc 1 2 1 2
arc 2 1 1 3
arc 1 3 0 4
arc 2 3 0 5
end
rows 2424832 2424832
base 4849664
least none
bound 4849664
closes 74
limit 0 9 none

# No walk, and a path that must be.
vrpmodel 1
var 0 2 3
var 0 2 4
var 0 2 2
var 0 2 5
var 0 2 3
var 0 2 4
row 1 1 0 1 3 1
row 1 1 1 1 2 1
sets 2
graph 4 0 3 1 1 1 0
vertex - 0 1
vertex 0 0 1
vertex 1 0 1
vertex - 0 1
arc 0 1 1 0
arc 0 2 1 1
arc 1 2 1 2
arc 2 1 1 3
arc 1 3 0 4
arc 2 3 0 5
end
rows 2424832 2424832
base 4849664
least none
none 0
limit 0 9 none

# With 5 on both rows: 10 - 2, and a walk below 9 costs at most 8 - 10 + 1.
vrpmodel 1
var 0 2 3
var 0 2 4
var 0 2 2
var 0 2 5
var 0 2 3
var 0 2 4
row 1 1 0 1 3 1
row 1 1 1 1 2 1
sets 2
graph 4 0 3 0 2 1 0
vertex - 0 2
vertex 0 0 2
vertex 1 0 2
vertex - 0 2
arc 0 1 1 0
arc 0 2 1 1
arc 1 2 1 2
arc 2 1 1 3
arc 1 3 0 4
arc 2 3 0 5
end
rows 327680 327680
base 655360
arcs -131072 -65536 -196608 0 196608 262144
least -65536
bound 524288
closes 8
limit 0 9 -65536

# No path may be: every walk is above the limit.
vrpmodel 1
var 0 2 3
var 0 2 4
var 0 2 2
var 0 2 5
var 0 2 3
var 0 2 4
row 1 1 0 1 3 1
row 1 1 1 1 2 1
sets 2
graph 4 0 3 0 0 1 0
vertex - 0 2
vertex 0 0 2
vertex 1 0 2
vertex - 0 2
arc 0 1 1 0
arc 0 2 1 1
arc 1 2 1 2
arc 2 1 1 3
arc 1 3 0 4
arc 2 3 0 5
end
rows 327680 327680
base 655360
least -65536
bound 655360
limit 0 9 none

# Two graphs, with 7 on the row: 14 - 2 - 5, and a walk of the first below 8 costs at most 7 - 14 + 5.
vrpmodel 1
var 1 1 5
var 0 1 2
row 2 2 0 1 1 1
graph 2 0 1 0 1 1 0
vertex - 0 1
vertex - 0 1
arc 0 1 1 0
graph 2 0 1 0 1 1 0
vertex - 0 1
vertex - 0 1
arc 0 1 1 1
end
rows 458752
base 917504
arcs -131072 -327680
starts 0 0
least -131072 -327680
bound 458752
closes 7
limit 0 8 -131072
limit 1 8 -327680

# The second graph has no walk and must have a path: the place has no solution, so no walk of the first is in one.
vrpmodel 1
var 1 1 5
var 0 1 2
row 2 2 0 1 1 1
graph 2 0 1 0 1 1 0
vertex - 0 1
vertex - 0 1
arc 0 1 1 0
graph 2 0 1 1 1 1 0
vertex - 0 1
vertex - 0 1
arc 0 1 1 1
end
rows 458752
base 917504
least -131072 none
none 1
limit 0 8 none";
