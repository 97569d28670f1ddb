//! The rows: models, places of them, and what is expected of their tables and walks.
//!
//! The lines of places are told in `test_places`, the others in `blocks`. The leasts and walks were worked out by hand from
//! the costs of all walks.

/// The rows, which stand apart by an empty line.
pub const ROWS: &str = "# Four vertices, with 4 and 5 on the rows: no walk costs less than 0.
vrpmodel 1
var 0 2 3
var 0 2 4
var 0 2 2
var 0 2 5
var 0 2 3
var 0 2 4
row 1 1 0 1 3 1
row 1 1 1 1 2 1
sets 2
graph 4 0 3 0 2 1 0
vertex - 0 2
vertex 0 0 2
vertex 1 0 2
vertex - 0 2
arc 0 1 1 0
arc 0 2 1 1
arc 1 2 1 2
arc 2 1 1 3
arc 1 3 0 4
arc 2 3 0 5
end
rows 262144 327680
tables 20 / 0
wall 3 / 0 forward
cheap 0 9
halves 1 / 0
halves 0 / 0
halves -1 / 0
joined 0 1 9 9

# The same with 5 on each row: one walk costs less than 0.
vrpmodel 1
var 0 2 3
var 0 2 4
var 0 2 2
var 0 2 5
var 0 2 3
var 0 2 4
row 1 1 0 1 3 1
row 1 1 1 1 2 1
sets 2
graph 4 0 3 0 2 1 0
vertex - 0 2
vertex 0 0 2
vertex 1 0 2
vertex - 0 2
arc 0 1 1 0
arc 0 2 1 1
arc 1 2 1 2
arc 2 1 1 3
arc 1 3 0 4
arc 2 3 0 5
end
rows 327680 327680
tables 100 / -65536
cheap 0 9 / 0 2 5
cheap 0 0
halves 1 / -65536
joined 0 1 9 9 / 0 2 5
joined 0 1 0 9
joined 0 1 9 0

# The same with 8 on each row: three walks cost less than 0, of which two visit each customer.
vrpmodel 1
var 0 2 3
var 0 2 4
var 0 2 2
var 0 2 5
var 0 2 3
var 0 2 4
row 1 1 0 1 3 1
row 1 1 1 1 2 1
sets 2
graph 4 0 3 0 2 1 0
vertex - 0 2
vertex 0 0 2
vertex 1 0 2
vertex - 0 2
arc 0 1 1 0
arc 0 2 1 1
arc 1 2 1 2
arc 2 1 1 3
arc 1 3 0 4
arc 2 3 0 5
end
rows 524288 524288
tables 100 / -458752
cheap 0 9 / 0 2 5 / 0 4
cheap 0 1 / 0 2 5
halves 1 / -458752
joined 0 1 9 9 / 0 2 5 / 1 3 4 / 0 4
joined 0 1 2 9 / 0 2 5 / 1 3 4
joined 0 1 9 2 / 0 2 5 / 1 3 4
joined 0 1 9 1 / 0 2 5

# Three customers, 2 on their variables, and the cut of all three.
vrpmodel 1
var 1 1 0
var 1 1 0
var 1 1 0
var 0 3 2
sets 3
graph 5 0 4 0 3 1 0
vertex - 0 2
vertex 0 0 2
vertex 1 0 2
vertex 2 0 2
vertex - 0 2
arc 0 1 1 0 3
arc 0 2 1 1 3
arc 0 3 1 2 3
arc 1 2 1 1
arc 1 3 1 2
arc 2 1 1 0
arc 2 3 1 2
arc 3 1 1 0
arc 3 2 1 1
arc 1 4 0
arc 2 4 0
arc 3 4 0
end
vars 131072 131072 131072 0
cut 2 131072 3 0 1 1 1 2 1 0 1 2
tables 100 / 0
cheap 0 9
halves 1 / 0

# Eight arcs in a chain of pairs, 1 on the variables 0 to 3.
vrpmodel 1
var 1 1 0
var 1 1 0
var 1 1 0
var 1 1 0
var 0 4 1
graph 5 0 4 1 1 1 0
vertex - 0 0
vertex - 0 0
vertex - 0 0
vertex - 0 0
vertex - 0 0
arc 0 1 0
arc 0 1 0 0 4
arc 1 2 0
arc 1 2 0 1 4
arc 2 3 0
arc 2 3 0 2 4
arc 3 4 0
arc 3 4 0 3 4
end
vars 65536 65536 65536 65536 0
tables 9 / 0
cheap 0 9

# A graph without a walk beside one with a walk.
vrpmodel 1
var 0 2 3
graph 2 0 1 0 2 1 0
vertex - 0 2
vertex - 0 2
arc 0 1 1 0
graph 2 0 1 0 2 1 0
vertex - 0 2
vertex - 0 2
arc 0 1 3 0
end
tables 9 / 196608 none
halves 1 / 196608 none
halves 0 / 196608 none
cheap 1 9
joined 1 0 9 9

# In the second graph three labels of partial walks, and four of rests.
vrpmodel 1
var 0 2 3
graph 2 0 1 0 2 1 0
vertex - 0 2
vertex - 0 2
arc 0 1 1 0
graph 4 0 3 0 2 1 0
vertex - 0 2
vertex - 0 2
vertex - 0 2
vertex - 0 2
arc 0 1 1 0
arc 1 3 1 0
arc 2 3 1 0
end
tables 4 / 196608 393216
wall 3 / 1 backward
wall 2 / 1 forward
wall 1 / 0 forward

# Two walks that cost the same, neither of which is better in both resources.
vrpmodel 1
var 0 9 3
row 1 1 0 1
graph 4 0 3 0 2 2 0
vertex - 0 2 0 2
vertex - 0 2 0 2
vertex - 0 2 0 2
vertex - 0 2 0 2
arc 0 1 1 2 0
arc 0 2 2 1 0
arc 1 3 0 0
arc 2 3 0 0
end
rows 262144
tables 100 / -65536
cheap 0 9 / 0 2 / 1 3
cheap 0 1 / 0 2";
