//! The rows: models, certificates with trees of prefixes, and what is expected of them.
//!
//! The lines of places are told in `test_places`. The labels, limits, walks and numbers of lines come from a reading of the
//! rules in Python that shares nothing with this code.

/// The rows, which stand apart by an empty line.
pub const ROWS: &str = "# Two walks, each over an arc that consumes nothing.
vrpmodel 1
var 0 2 3
var 0 2 4
var 0 2 2
var 0 2 5
var 0 2 3
var 0 2 4
row 1 1 0 1 3 1
row 1 1 1 1 2 1
sets 2
graph 4 0 3 0 1 1 0
vertex - 0 1
vertex 0 0 1
vertex 1 0 1
vertex - 0 1
arc 0 1 1 0
arc 0 2 1 1
arc 1 2 1 2
arc 2 1 1 3
arc 1 3 0 4
arc 2 3 0 5
end
infeasible
proof 1
list
table 0 both 393216
fore 0 0 0
fore 1 196608 1 m 0
fore 2 262144 1 m 1
fore 3 393216 1
back 3 0 1
back 1 196608 1 m 0
back 2 262144 1 m 1
back 0 393216 0
tree 0
pre 0 0
pre 0 1
pre 1 4
pre 2 5
end
limits 2752512
complete yes
walks / 0 4 / 1 5
lists 43 4 4
lists 43 100 4
wall 43 3 3
wall 43 1 1
wall 43 0 0

# A demanded arc without a child.
vrpmodel 1
var 0 2 3
var 0 2 4
var 0 2 2
var 0 2 5
var 0 2 3
var 0 2 4
row 1 1 0 1 3 1
row 1 1 1 1 2 1
sets 2
graph 4 0 3 0 1 1 0
vertex - 0 1
vertex 0 0 1
vertex 1 0 1
vertex - 0 1
arc 0 1 1 0
arc 0 2 1 1
arc 1 2 1 2
arc 2 1 1 3
arc 1 3 0 4
arc 2 3 0 5
end
infeasible
proof 1
list
table 0 both 393216
fore 0 0 0
fore 1 196608 1 m 0
fore 2 262144 1 m 1
fore 3 393216 1
back 3 0 1
back 1 196608 1 m 0
back 2 262144 1 m 1
back 0 393216 0
tree 0
pre 0 0
pre 0 1
pre 1 4
end
limits 2752512
complete no
walks

# A parent that is not lower.
vrpmodel 1
var 0 2 3
var 0 2 4
var 0 2 2
var 0 2 5
var 0 2 3
var 0 2 4
row 1 1 0 1 3 1
row 1 1 1 1 2 1
sets 2
graph 4 0 3 0 1 1 0
vertex - 0 1
vertex 0 0 1
vertex 1 0 1
vertex - 0 1
arc 0 1 1 0
arc 0 2 1 1
arc 1 2 1 2
arc 2 1 1 3
arc 1 3 0 4
arc 2 3 0 5
end
infeasible
proof 1
list
table 0 both 393216
fore 0 0 0
fore 1 196608 1 m 0
fore 2 262144 1 m 1
fore 3 393216 1
back 3 0 1
back 1 196608 1 m 0
back 2 262144 1 m 1
back 0 393216 0
tree 0
pre 0 0
pre 0 1
pre 4 4
pre 2 5
end
limits 2752512
complete no
walks

# Two equal lines.
vrpmodel 1
var 0 2 3
var 0 2 4
var 0 2 2
var 0 2 5
var 0 2 3
var 0 2 4
row 1 1 0 1 3 1
row 1 1 1 1 2 1
sets 2
graph 4 0 3 0 1 1 0
vertex - 0 1
vertex 0 0 1
vertex 1 0 1
vertex - 0 1
arc 0 1 1 0
arc 0 2 1 1
arc 1 2 1 2
arc 2 1 1 3
arc 1 3 0 4
arc 2 3 0 5
end
infeasible
proof 1
list
table 0 both 393216
fore 0 0 0
fore 1 196608 1 m 0
fore 2 262144 1 m 1
fore 3 393216 1
back 3 0 1
back 1 196608 1 m 0
back 2 262144 1 m 1
back 0 393216 0
tree 0
pre 0 0
pre 0 1
pre 1 4
pre 2 5
pre 2 5
end
limits 2752512
complete no
walks

# An arc that does not leave the parent's vertex.
vrpmodel 1
var 0 2 3
var 0 2 4
var 0 2 2
var 0 2 5
var 0 2 3
var 0 2 4
row 1 1 0 1 3 1
row 1 1 1 1 2 1
sets 2
graph 4 0 3 0 1 1 0
vertex - 0 1
vertex 0 0 1
vertex 1 0 1
vertex - 0 1
arc 0 1 1 0
arc 0 2 1 1
arc 1 2 1 2
arc 2 1 1 3
arc 1 3 0 4
arc 2 3 0 5
end
infeasible
proof 1
list
table 0 both 393216
fore 0 0 0
fore 1 196608 1 m 0
fore 2 262144 1 m 1
fore 3 393216 1
back 3 0 1
back 1 196608 1 m 0
back 2 262144 1 m 1
back 0 393216 0
tree 0
pre 0 0
pre 0 1
pre 1 4
pre 2 5
pre 1 5
end
limits 2752512
complete no
walks

# A window that refuses.
vrpmodel 1
var 0 2 3
var 0 2 4
var 0 2 2
var 0 2 5
var 0 2 3
var 0 2 4
row 1 1 0 1 3 1
row 1 1 1 1 2 1
sets 2
graph 4 0 3 0 1 1 0
vertex - 0 1
vertex 0 0 1
vertex 1 0 1
vertex - 0 1
arc 0 1 1 0
arc 0 2 1 1
arc 1 2 1 2
arc 2 1 1 3
arc 1 3 0 4
arc 2 3 0 5
end
infeasible
proof 1
list
table 0 both 393216
fore 0 0 0
fore 1 196608 1 m 0
fore 2 262144 1 m 1
fore 3 393216 1
back 3 0 1
back 1 196608 1 m 0
back 2 262144 1 m 1
back 0 393216 0
tree 0
pre 0 0
pre 0 1
pre 1 4
pre 2 5
pre 1 2
end
limits 2752512
complete no
walks

# A dropped arc in the tree.
vrpmodel 1
var 0 2 3
var 0 2 4
var 0 2 2
var 0 2 5
var 0 2 3
var 0 2 4
row 1 1 0 1 3 1
row 1 1 1 1 2 1
sets 2
graph 4 0 3 0 1 1 0
vertex - 0 1
vertex 0 0 1
vertex 1 0 1
vertex - 0 1
arc 0 1 1 0
arc 0 2 1 1
arc 1 2 1 2
arc 2 1 1 3
arc 1 3 0 4
arc 2 3 0 5
end
infeasible
proof 1
list
table 0 both 393216
fore 0 0 0
fore 1 196608 1 m 0
fore 3 393216 1
back 3 0 1
back 1 196608 1 m 0
back 2 262144 1 m 1
back 0 393216 0
tree 0
pre 0 0
pre 0 1
pre 1 4
pre 2 5
end
drop 1
limits 2752512
complete no
walks

# The same place without the arc.
vrpmodel 1
var 0 2 3
var 0 2 4
var 0 2 2
var 0 2 5
var 0 2 3
var 0 2 4
row 1 1 0 1 3 1
row 1 1 1 1 2 1
sets 2
graph 4 0 3 0 1 1 0
vertex - 0 1
vertex 0 0 1
vertex 1 0 1
vertex - 0 1
arc 0 1 1 0
arc 0 2 1 1
arc 1 2 1 2
arc 2 1 1 3
arc 1 3 0 4
arc 2 3 0 5
end
infeasible
proof 1
list
table 0 both 393216
fore 0 0 0
fore 1 196608 1 m 0
fore 3 393216 1
back 3 0 1
back 1 196608 1 m 0
back 2 262144 1 m 1
back 0 393216 0
tree 0
pre 0 0
pre 1 4
end
drop 1
limits 2752512
complete yes
walks / 0 4
lists 43 2 2
wall 43 1 1

# An arc that maps a variable whose box ends at 0.
vrpmodel 1
var 0 2 3
var 0 2 4
var 0 2 2
var 0 2 5
var 0 2 3
var 0 2 4
row 1 1 0 1 3 1
row 1 1 1 1 2 1
sets 2
graph 4 0 3 0 1 1 0
vertex - 0 1
vertex 0 0 1
vertex 1 0 1
vertex - 0 1
arc 0 1 1 0
arc 0 2 1 1
arc 1 2 1 2
arc 2 1 1 3
arc 1 3 0 4
arc 2 3 0 5
end
infeasible
proof 1
list
table 0 both 524288
fore 0 0 0
fore 1 196608 1 m 0
fore 2 262144 1 m 1
fore 3 524288 1
back 3 0 1
back 2 262144 1 m 1
back 0 524288 0
back 1 393216 0 m 0
tree 0
pre 0 0
pre 0 1
pre 1 4
pre 2 5
end
var 4 0 0
limits 2752512
complete no
walks

# Wide windows: four walks, and none that visits a set twice.
vrpmodel 1
var 0 2 3
var 0 2 4
var 0 2 2
var 0 2 5
var 0 2 3
var 0 2 4
row 1 1 0 1 3 1
row 1 1 1 1 2 1
sets 2
graph 4 0 3 0 3 1 0
vertex - 0 9
vertex 0 0 9
vertex 1 0 9
vertex - 0 9
arc 0 1 1 0
arc 0 2 1 1
arc 1 2 1 2
arc 2 1 1 3
arc 1 3 0 4
arc 2 3 0 5
end
infeasible
proof 1
list
table 0 both 393216
fore 0 0 0
fore 1 196608 1 m 0
fore 2 262144 1 m 1
fore 3 393216 1
back 3 0 9
back 1 196608 9 m 0
back 2 262144 9 m 1
back 0 393216 8
tree 0
pre 0 0
pre 0 1
pre 1 2
pre 1 4
pre 2 3
pre 2 5
pre 3 5
pre 5 4
end
limits 2752512
complete yes
walks / 0 4 / 1 5 / 0 2 5 / 1 3 4
lists 43 8 8
wall 43 7 7
wall 43 5 5

# A set that is entered twice.
vrpmodel 1
var 0 2 3
var 0 2 4
var 0 2 2
var 0 2 5
var 0 2 3
var 0 2 4
row 1 1 0 1 3 1
row 1 1 1 1 2 1
sets 2
graph 4 0 3 0 3 1 0
vertex - 0 9
vertex 0 0 9
vertex 1 0 9
vertex - 0 9
arc 0 1 1 0
arc 0 2 1 1
arc 1 2 1 2
arc 2 1 1 3
arc 1 3 0 4
arc 2 3 0 5
end
infeasible
proof 1
list
table 0 both 393216
fore 0 0 0
fore 1 196608 1 m 0
fore 2 262144 1 m 1
fore 3 393216 1
back 3 0 9
back 1 196608 9 m 0
back 2 262144 9 m 1
back 0 393216 8
tree 0
pre 0 0
pre 0 1
pre 1 2
pre 1 4
pre 2 3
pre 2 5
pre 3 3
end
limits 2752512
complete no
walks

# A limit that one walk meets exactly, and that the others pass.
vrpmodel 1
var 0 2 3
var 0 2 4
var 0 2 2
var 0 2 5
var 0 2 3
var 0 2 4
row 1 1 0 1 3 1
row 1 1 1 1 2 1
sets 2
graph 4 0 3 0 3 1 0
vertex - 0 9
vertex 0 0 9
vertex 1 0 9
vertex - 0 9
arc 0 1 1 0
arc 0 2 1 1
arc 1 2 1 2
arc 2 1 1 3
arc 1 3 0 4
arc 2 3 0 5
end
infeasible
proof 1
list
table 0 both 393216
fore 0 0 0
fore 1 196608 1 m 0
fore 2 262144 1 m 1
fore 3 393216 1
back 3 0 9
back 1 196608 9 m 0
back 2 262144 9 m 1
back 0 393216 8
tree 0
pre 0 0
pre 1 4
end
limits 393216
complete yes
walks / 0 4
lists 7 2 2
lists 7 50 2
wall 7 1 1

# A tree with a line that is not demanded is complete.
vrpmodel 1
var 0 2 3
var 0 2 4
var 0 2 2
var 0 2 5
var 0 2 3
var 0 2 4
row 1 1 0 1 3 1
row 1 1 1 1 2 1
sets 2
graph 4 0 3 0 3 1 0
vertex - 0 9
vertex 0 0 9
vertex 1 0 9
vertex - 0 9
arc 0 1 1 0
arc 0 2 1 1
arc 1 2 1 2
arc 2 1 1 3
arc 1 3 0 4
arc 2 3 0 5
end
infeasible
proof 1
list
table 0 both 393216
fore 0 0 0
fore 1 196608 1 m 0
fore 2 262144 1 m 1
fore 3 393216 1
back 3 0 9
back 1 196608 9 m 0
back 2 262144 9 m 1
back 0 393216 8
tree 0
pre 0 0
pre 1 4
pre 0 1
end
limits 393216
complete yes
walks / 0 4

# No arc is demanded.
vrpmodel 1
var 0 2 3
var 0 2 4
var 0 2 2
var 0 2 5
var 0 2 3
var 0 2 4
row 1 1 0 1 3 1
row 1 1 1 1 2 1
sets 2
graph 4 0 3 0 1 1 0
vertex - 0 1
vertex 0 0 1
vertex 1 0 1
vertex - 0 1
arc 0 1 1 0
arc 0 2 1 1
arc 1 2 1 2
arc 2 1 1 3
arc 1 3 0 4
arc 2 3 0 5
end
infeasible
proof 1
list
table 0 both 393216
fore 0 0 0
fore 1 196608 1 m 0
fore 2 262144 1 m 1
fore 3 393216 1
back 3 0 1
back 1 196608 1 m 0
back 2 262144 1 m 1
back 0 393216 0
tree 0
end
limits -65536
complete yes
walks
lists 0 0 0
lists 0 3 0

# No walk, and so no least.
vrpmodel 1
var 0 2 3
var 0 2 4
var 0 2 2
var 0 2 5
var 0 2 3
var 0 2 4
row 1 1 0 1 3 1
row 1 1 1 1 2 1
sets 2
graph 4 0 3 0 1 1 0
vertex - 0 1
vertex 0 0 1
vertex 1 0 1
vertex - 0 1
arc 0 1 1 0
arc 0 2 1 1
arc 1 2 1 2
arc 2 1 1 3
arc 1 3 2 4
arc 2 3 2 5
end
infeasible
proof 1
list
table 0 both none
fore 0 0 0
fore 1 196608 1 m 0
fore 2 262144 1 m 1
back 3 0 1
tree 0
end
limits none
complete yes
walks
lists 43 0 0
lists 43 3 0

# A path count that ends at 0.
vrpmodel 1
var 0 2 3
var 0 2 4
var 0 2 2
var 0 2 5
var 0 2 3
var 0 2 4
row 1 1 0 1 3 1
row 1 1 1 1 2 1
sets 2
graph 4 0 3 0 1 1 0
vertex - 0 1
vertex 0 0 1
vertex 1 0 1
vertex - 0 1
arc 0 1 1 0
arc 0 2 1 1
arc 1 2 1 2
arc 2 1 1 3
arc 1 3 0 4
arc 2 3 0 5
end
infeasible
proof 1
list
table 0 both none
fore 0 0 0
back 3 0 1
tree 0
end
path 0 0 0
limits none
complete yes
walks
lists 43 0 0

# Two graphs, of which the first takes limits up to eight lines.
vrpmodel 1
var 0 2 3
var 0 2 4
var 0 2 2
var 0 2 5
var 0 2 3
var 0 2 4
row 1 1 0 1 3 1
row 1 1 1 1 2 1
sets 2
graph 4 0 3 0 3 1 0
vertex - 0 9
vertex 0 0 9
vertex 1 0 9
vertex - 0 9
arc 0 1 1 0
arc 0 2 1 1
arc 1 2 1 2
arc 2 1 1 3
arc 1 3 0 4
arc 2 3 0 5
graph 4 0 3 0 1 1 0
vertex - 0 1
vertex 0 0 1
vertex 1 0 1
vertex - 0 1
arc 0 1 1 0
arc 0 2 1 1
arc 1 2 1 2
arc 2 1 1 3
arc 1 3 0 4
arc 2 3 0 5
end
infeasible
proof 1
list
table 0 both 393216
fore 0 0 0
fore 1 196608 1 m 0
fore 2 262144 1 m 1
fore 3 393216 1
back 3 0 9
back 1 196608 9 m 0
back 2 262144 9 m 1
back 0 393216 8
table 1 both 393216
fore 0 0 0
fore 1 196608 1 m 0
fore 2 262144 1 m 1
fore 3 393216 1
back 3 0 1
back 1 196608 1 m 0
back 2 262144 1 m 1
back 0 393216 0
tree 0
pre 0 0
pre 0 1
pre 1 2
pre 1 4
pre 2 3
pre 2 5
pre 3 5
pre 5 4
tree 1
pre 0 0
pre 0 1
pre 1 4
pre 2 5
end
limits 2752512 2752512
complete yes yes
walks / 0 4 / 1 5 / 0 2 5 / 1 3 4
walks / 0 4 / 1 5
lists 43 12 8 4
lists 43 40 8 4
wall 43 11 8 3
wall 43 8 8 0
wall 43 9 8 1
wall 43 3 3 0

# Free arcs inside the prefixes.
vrpmodel 1
var 0 2 1
var 0 2 1
sets 2
graph 5 0 4 0 2 1 0
vertex - 0 1
vertex 0 0 1
vertex - 0 1
vertex 1 0 1
vertex - 0 1
arc 0 1 0 0
arc 1 2 0
arc 2 3 1 1
arc 3 4 0
arc 2 4 0
arc 0 2 0 1
end
infeasible
proof 1
list
table 0 both 65536
fore 0 0 0
fore 1 65536 0 m 0
fore 2 65536 0
fore 3 131072 1 m 1
fore 4 65536 0
back 4 0 1
back 3 0 1 m 1
back 2 0 1
back 1 0 1 m 0
back 0 65536 1
tree 0
pre 0 0
pre 0 5
pre 1 1
pre 2 2
pre 2 4
pre 3 2
pre 3 4
pre 4 3
pre 6 3
end
limits 524288
complete yes
walks / 5 4 / 0 1 4 / 5 2 3 / 0 1 2 3
lists 9 9 9
wall 9 8 8

# Multipliers, a cut and near lists.
vrpmodel 1
var 0 2 3
var 0 2 4
var 0 2 2
var 0 2 5
var 0 2 3
var 0 2 4
row 1 1 0 1 3 1
row 1 1 1 1 2 1
sets 2
graph 4 0 3 0 3 1 0
vertex - 0 9
vertex 0 0 9
vertex 1 0 9
vertex - 0 9
arc 0 1 1 0
arc 0 2 1 1
arc 1 2 1 2
arc 2 1 1 3
arc 1 3 0 4
arc 2 3 0 5
end
infeasible
proof 1
list
cut 2 40000 2 0 1 1 1 0 1
table 0 both 460448
fore 0 100000 0 s 0
fore 1 263840 1 m 0 s 1
fore 2 231072 1 m 1 s 1
fore 3 460448 1 s 1
back 3 0 9 s 0
back 1 229376 9 m 0 s 1
back 2 262144 9 m 1 s 1
back 0 360448 8 s 1
tree 0
pre 0 0
pre 0 1
pre 1 2
pre 1 4
pre 2 3
pre 2 5
pre 3 5
pre 5 4
end
rows 65536 131072
sets -32768 0
paths -100000
cut 2 40000 2 0 1 1 1 0 1
near 1 0 1
near 2 0 1
limits 1421344
complete yes
walks / 0 4 / 1 5 / 0 2 5 / 1 3 4
lists 20 8 8
wall 20 7 7

# The same with no set near any vertex, where labels forget their visits.
vrpmodel 1
var 0 2 3
var 0 2 4
var 0 2 2
var 0 2 5
var 0 2 3
var 0 2 4
row 1 1 0 1 3 1
row 1 1 1 1 2 1
sets 2
graph 4 0 3 0 3 1 0
vertex - 0 9
vertex 0 0 9
vertex 1 0 9
vertex - 0 9
arc 0 1 1 0
arc 0 2 1 1
arc 1 2 1 2
arc 2 1 1 3
arc 1 3 0 4
arc 2 3 0 5
end
infeasible
proof 1
list
table 0 both 327680
fore 0 0 0
fore 1 131072 1 m 0
fore 2 131072 1 m 1
fore 3 327680 1
back 3 0 9
back 1 196608 9 m 0
back 2 262144 9 m 1
back 0 327680 8
tree 0
pre 0 0
pre 0 1
pre 1 2
pre 1 4
pre 2 3
pre 2 5
pre 3 5
pre 5 4
end
rows 65536 131072
limits 1048576
complete yes
walks / 0 4 / 1 5 / 0 2 5 / 1 3 4
lists 20 8 8
wall 20 7 7";
