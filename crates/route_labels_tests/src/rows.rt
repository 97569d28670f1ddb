//! The rows: models, places of them, and what is expected of the labels of graph 0.
//!
//! The lines of places are told in `test_places`, the others in `labels`, `tables`, `steps` and `joined`. The expected labels
//! and costs come from a reading of the rules in Python that shares nothing with this code; those of the first, second,
//! fourth and sixth block were worked out by hand before.

/// The rows, which stand apart by an empty line.
pub const ROWS: &str = "# Four vertices, with 4 and 5 on the rows: no walk costs less than 0.
vrpmodel 1
var 0 2 3
var 0 2 4
var 0 2 2
var 0 2 5
var 0 2 3
var 0 2 4
row 1 1 0 1 3 1
row 1 1 1 1 2 1
sets 2
graph 4 0 3 0 2 1 0
vertex - 0 2
vertex 0 0 2
vertex 1 0 2
vertex - 0 2
arc 0 1 1 0
arc 0 2 1 1
arc 1 2 1 2
arc 2 1 1 3
arc 1 3 0 4
arc 2 3 0 5
end
rows 262144 327680
fore 0 0 0
fore 1 -65536 1 m 0
fore 2 -65536 1 m 1
fore 2 -262144 2 m 1
fore 3 131072 1
fore 3 0 2
walk 0 2 5 / 0
walk 1 5 / 196608
walk 0 4 / 131072
better 1 -65536 1 m 0 / 1 0 2 m 0 / yes
better 2 -65536 1 m 1 / 2 -262144 2 m 1 / no

# Windows 0..1 and one path, with 37 on each row: as the source and the sink are in no set, nothing is remembered there.
vrpmodel 1
var 0 2 3
var 0 2 4
var 0 2 2
var 0 2 5
var 0 2 3
var 0 2 4
row 1 1 0 1 3 1
row 1 1 1 1 2 1
sets 2
graph 4 0 3 0 1 1 0
vertex - 0 1
vertex 0 0 1
vertex 1 0 1
vertex - 0 1
arc 0 1 1 0
arc 0 2 1 1
arc 1 2 1 2
arc 2 1 1 3
arc 1 3 0 4
arc 2 3 0 5
end
rows 2424832 2424832
fore 0 0 0
fore 1 -2228224 1 m 0
fore 2 -2162688 1 m 1
fore 3 -2031616 1

# The same without multipliers, in both directions.
vrpmodel 1
var 0 2 3
var 0 2 4
var 0 2 2
var 0 2 5
var 0 2 3
var 0 2 4
row 1 1 0 1 3 1
row 1 1 1 1 2 1
sets 2
graph 4 0 3 0 1 1 0
vertex - 0 1
vertex 0 0 1
vertex 1 0 1
vertex - 0 1
arc 0 1 1 0
arc 0 2 1 1
arc 1 2 1 2
arc 2 1 1 3
arc 1 3 0 4
arc 2 3 0 5
end
fore 0 0 0
fore 1 196608 1 m 0
fore 2 262144 1 m 1
fore 3 393216 1
back 3 0 1
back 1 196608 1 m 0
back 2 262144 1 m 1
back 0 393216 0
least 393216

# Three customers, 2 on their variables, and the cut of all three: a second visit pays 2 more.
vrpmodel 1
var 1 1 0
var 1 1 0
var 1 1 0
var 0 3 2
sets 3
graph 5 0 4 0 3 1 0
vertex - 0 2
vertex 0 0 2
vertex 1 0 2
vertex 2 0 2
vertex - 0 2
arc 0 1 1 0 3
arc 0 2 1 1 3
arc 0 3 1 2 3
arc 1 2 1 1
arc 1 3 1 2
arc 2 1 1 0
arc 2 3 1 2
arc 3 1 1 0
arc 3 2 1 1
arc 1 4 0
arc 2 4 0
arc 3 4 0
end
vars 131072 131072 131072 0
cut 2 131072 3 0 1 1 1 2 1 0 1 2
fore 0 0 0 s 0
fore 1 0 1 m 0 s 1
fore 2 0 1 m 1 s 1
fore 3 0 1 m 2 s 1
fore 2 0 2 m 1 s 0
fore 3 0 2 m 2 s 0
fore 4 0 1 s 1
fore 1 0 2 m 0 s 0
fore 4 0 2 s 0
join 1 0 1 m 0 s 1 / 3 / 2 0 2 m 1 s 1 / 0
join 1 0 1 m 0 s 1 / 3 / 2 0 2 m 1 s 0 / -131072
join 1 0 1 m 0 s 0 / 3 / 2 0 2 m 1 s 1 / -131072
better 2 0 2 m 1 s 0 / 2 0 2 m 1 s 1 / yes
better 2 0 2 m 1 s 1 / 2 0 2 m 1 s 0 / no
better 2 -131072 2 m 1 s 1 / 2 0 2 m 1 s 0 / yes
better_back 2 0 2 m 1 s 1 / 2 0 2 m 1 s 0 / no
better_back 2 0 2 m 1 s 0 / 2 0 1 m 1 s 1 / yes
better_back 2 0 1 m 1 s 0 / 2 0 2 m 1 s 1 / no
forward 1 0 1 m 0 s 1 / 0 / 2 0 2 m 1 s 0
backward 2 0 2 m 1 s 1 / 1 / 1 0 1 m 0 s 0
walk 0 3 10 / 0
walk 2 11 / 0
back 4 0 2 s 0
back 1 0 2 m 0 s 1
back 2 0 2 m 1 s 1
back 3 0 2 m 2 s 1
back 0 0 1 s 1
back 2 0 1 m 1 s 0
back 3 0 1 m 2 s 0
back 1 0 1 m 0 s 0
back 0 0 0 s 0
back 1 -131072 0 m 0 s 1
back 3 -131072 0 m 2 s 1
back 2 -131072 0 m 1 s 1
least 0

# The cut with the memory 0 2: a visit to 1 makes the state 0.
vrpmodel 1
var 1 1 0
var 1 1 0
var 1 1 0
var 0 3 2
sets 3
graph 5 0 4 0 3 1 0
vertex - 0 2
vertex 0 0 2
vertex 1 0 2
vertex 2 0 2
vertex - 0 2
arc 0 1 1 0 3
arc 0 2 1 1 3
arc 0 3 1 2 3
arc 1 2 1 1
arc 1 3 1 2
arc 2 1 1 0
arc 2 3 1 2
arc 3 1 1 0
arc 3 2 1 1
arc 1 4 0
arc 2 4 0
arc 3 4 0
end
cut 2 131072 3 0 1 1 1 2 1 0 2
forward 1 0 1 m 0 s 1 / 0 / 2 0 2 m 1 s 0
forward 1 0 1 m 0 s 1 / 1 / 3 131072 2 m 2 s 0
backward 3 0 1 m 2 s 1 / 2 / 2 0 0 m 1 s 0

# Four vertices, with 5 on each row, in both directions; three arcs have only joins above -1.
vrpmodel 1
var 0 2 3
var 0 2 4
var 0 2 2
var 0 2 5
var 0 2 3
var 0 2 4
row 1 1 0 1 3 1
row 1 1 1 1 2 1
sets 2
graph 4 0 3 0 2 1 0
vertex - 0 2
vertex 0 0 2
vertex 1 0 2
vertex - 0 2
arc 0 1 1 0
arc 0 2 1 1
arc 1 2 1 2
arc 2 1 1 3
arc 1 3 0 4
arc 2 3 0 5
end
rows 327680 327680
fore 0 0 0
fore 1 -131072 1 m 0
fore 2 -65536 1 m 1
fore 2 -327680 2 m 1
fore 3 65536 1
fore 3 -65536 2
back 3 0 2
back 1 196608 2 m 0
back 2 262144 2 m 1
back 0 65536 1
back 2 196608 1 m 1
back 1 65536 1 m 0
back 1 0 0 m 0
back 0 -65536 0
back 2 65536 0 m 1
over 0 / -1 / no
over 1 / -1 / yes
over 2 / -1 / no
over 3 / -1 / yes
over 4 / -1 / yes
over 5 / -1 / no
over 0 / -131072 / yes
over 1 / -131072 / yes
over 2 / -131072 / yes
over 3 / -131072 / yes
over 4 / -131072 / yes
over 5 / -131072 / yes

# A half pair up to and above 1, with 4 and 5 on the rows: its least join is 0.
vrpmodel 1
var 0 2 3
var 0 2 4
var 0 2 2
var 0 2 5
var 0 2 3
var 0 2 4
row 1 1 0 1 3 1
row 1 1 1 1 2 1
sets 2
graph 4 0 3 0 2 1 0
vertex - 0 2
vertex 0 0 2
vertex 1 0 2
vertex - 0 2
arc 0 1 1 0
arc 0 2 1 1
arc 1 2 1 2
arc 2 1 1 3
arc 1 3 0 4
arc 2 3 0 5
end
rows 262144 327680
top 1
above 1
fore 0 0 0
fore 1 -65536 1 m 0
fore 2 -65536 1 m 1
back 3 0 2
back 1 196608 2 m 0
back 2 262144 2 m 1
least 0
forward 0 0 0 / 0 / 1 -65536 1 m 0
forward 1 -65536 1 m 0 / 0 / none
forward 1 -65536 1 m 0 / 1 / none
backward 3 0 2 / 0 / 1 196608 2 m 0
backward 2 262144 2 m 1 / 1 / none
backward 1 196608 2 m 0 / 0 / none

# Up to and above 0: no extension forward, all backward but those into the source.
vrpmodel 1
var 0 2 3
var 0 2 4
var 0 2 2
var 0 2 5
var 0 2 3
var 0 2 4
row 1 1 0 1 3 1
row 1 1 1 1 2 1
sets 2
graph 4 0 3 0 2 1 0
vertex - 0 2
vertex 0 0 2
vertex 1 0 2
vertex - 0 2
arc 0 1 1 0
arc 0 2 1 1
arc 1 2 1 2
arc 2 1 1 3
arc 1 3 0 4
arc 2 3 0 5
end
rows 262144 327680
top 0
above 0
fore 0 0 0
back 3 0 2
back 1 196608 2 m 0
back 2 262144 2 m 1
back 1 65536 1 m 0
least 0
forward 0 0 0 / 0 / none
backward 2 262144 2 m 1 / 1 / 1 65536 1 m 0
backward 1 0 1 m 0 / 0 / none

# Up to and above 2: all extensions forward but those into the sink, none backward.
vrpmodel 1
var 0 2 3
var 0 2 4
var 0 2 2
var 0 2 5
var 0 2 3
var 0 2 4
row 1 1 0 1 3 1
row 1 1 1 1 2 1
sets 2
graph 4 0 3 0 2 1 0
vertex - 0 2
vertex 0 0 2
vertex 1 0 2
vertex - 0 2
arc 0 1 1 0
arc 0 2 1 1
arc 1 2 1 2
arc 2 1 1 3
arc 1 3 0 4
arc 2 3 0 5
end
rows 262144 327680
top 2
above 2
fore 0 0 0
fore 1 -65536 1 m 0
fore 2 -65536 1 m 1
fore 2 -262144 2 m 1
back 3 0 2
least 0
forward 1 -65536 1 m 0 / 0 / 2 -262144 2 m 1
backward 3 0 2 / 1 / none

# Windows 0..4 and empty near lists: each visit forgets the other set, so a walk visits a set twice and has a label.
vrpmodel 1
var 0 2 3
var 0 2 4
var 0 2 2
var 0 2 5
var 0 2 3
var 0 2 4
row 1 1 0 1 3 1
row 1 1 1 1 2 1
sets 2
graph 4 0 3 0 2 1 0
vertex - 0 4
vertex 0 0 4
vertex 1 0 4
vertex - 0 4
arc 0 1 1 0
arc 0 2 1 1
arc 1 2 1 2
arc 2 1 1 3
arc 1 3 0 4
arc 2 3 0 5
end
fore 0 0 0
fore 1 196608 1 m 0
fore 2 262144 1 m 1
fore 3 393216 1
forward 1 0 1 m 0 / 0 / 2 131072 2 m 1
forward 2 0 2 m 1 / 0 / 1 327680 3 m 0
walk 0 2 3 4 / 851968
join 1 0 1 m 0 / 2 / 2 0 4 m 0 1 / none
join 1 0 1 m 0 / 2 / 2 0 4 m 1 / 131072

# The same with both sets near both vertices: the second visit is refused, from either side.
vrpmodel 1
var 0 2 3
var 0 2 4
var 0 2 2
var 0 2 5
var 0 2 3
var 0 2 4
row 1 1 0 1 3 1
row 1 1 1 1 2 1
sets 2
graph 4 0 3 0 2 1 0
vertex - 0 4
vertex 0 0 4
vertex 1 0 4
vertex - 0 4
arc 0 1 1 0
arc 0 2 1 1
arc 1 2 1 2
arc 2 1 1 3
arc 1 3 0 4
arc 2 3 0 5
end
near 1 0 1
near 2 0 1
fore 0 0 0
fore 1 196608 1 m 0
fore 2 262144 1 m 1
fore 3 393216 1
forward 2 0 2 m 0 1 / 0 / none
forward 2 0 2 m 1 / 0 / 1 327680 3 m 0 1
backward 1 0 4 m 0 1 / 1 / none
backward 1 0 4 m 0 / 1 / 2 327680 3 m 0 1

# One set near the second vertex: the first is remembered there, and the second is forgotten at the first.
vrpmodel 1
var 0 2 3
var 0 2 4
var 0 2 2
var 0 2 5
var 0 2 3
var 0 2 4
row 1 1 0 1 3 1
row 1 1 1 1 2 1
sets 2
graph 4 0 3 0 2 1 0
vertex - 0 4
vertex 0 0 4
vertex 1 0 4
vertex - 0 4
arc 0 1 1 0
arc 0 2 1 1
arc 1 2 1 2
arc 2 1 1 3
arc 1 3 0 4
arc 2 3 0 5
end
near 2 0
fore 0 0 0
fore 1 196608 1 m 0
fore 2 262144 1 m 1
fore 3 393216 1
forward 2 0 2 m 0 1 / 0 / none
forward 1 0 3 m 0 / 0 / 2 131072 4 m 0 1

# An arc is dropped: it is shut both ways, and nothing joins over it.
vrpmodel 1
var 0 2 3
var 0 2 4
var 0 2 2
var 0 2 5
var 0 2 3
var 0 2 4
row 1 1 0 1 3 1
row 1 1 1 1 2 1
sets 2
graph 4 0 3 0 2 1 0
vertex - 0 2
vertex 0 0 2
vertex 1 0 2
vertex - 0 2
arc 0 1 1 0
arc 0 2 1 1
arc 1 2 1 2
arc 2 1 1 3
arc 1 3 0 4
arc 2 3 0 5
end
drop 0
fore 0 0 0
fore 2 262144 1 m 1
fore 1 589824 2 m 0
fore 3 524288 1
back 3 0 2
back 1 196608 2 m 0
back 2 262144 2 m 1
back 0 524288 1
least 524288
forward 0 0 0 / 0 / none
forward 0 0 0 / 1 / 2 262144 1 m 1
backward 1 0 1 m 0 / 0 / none
join 0 0 0 / 0 / 1 0 2 m 0 / none
join 0 0 0 / 1 / 2 0 2 m 1 / 262144

# The box of the variable of an arc ends at 0: so it is too.
vrpmodel 1
var 0 2 3
var 0 2 4
var 0 2 2
var 0 2 5
var 0 2 3
var 0 2 4
row 1 1 0 1 3 1
row 1 1 1 1 2 1
sets 2
graph 4 0 3 0 2 1 0
vertex - 0 2
vertex 0 0 2
vertex 1 0 2
vertex - 0 2
arc 0 1 1 0
arc 0 2 1 1
arc 1 2 1 2
arc 2 1 1 3
arc 1 3 0 4
arc 2 3 0 5
end
var 1 0 0
forward 0 0 0 / 0 / 1 196608 1 m 0
forward 0 0 0 / 1 / none
backward 2 0 1 m 1 / 0 / none
join 0 0 0 / 1 / 2 0 2 m 1 / none

# The path count ends at 0: all arcs are shut.
vrpmodel 1
var 0 2 3
var 0 2 4
var 0 2 2
var 0 2 5
var 0 2 3
var 0 2 4
row 1 1 0 1 3 1
row 1 1 1 1 2 1
sets 2
graph 4 0 3 0 2 1 0
vertex - 0 2
vertex 0 0 2
vertex 1 0 2
vertex - 0 2
arc 0 1 1 0
arc 0 2 1 1
arc 1 2 1 2
arc 2 1 1 3
arc 1 3 0 4
arc 2 3 0 5
end
path 0 0 0
fore 0 0 0
back 3 0 2
least none
forward 0 0 0 / 0 / none
backward 3 0 2 / 0 / none

# Each window refuses one step, and a value that does not join.
vrpmodel 1
var 0 2 3
var 0 2 4
var 0 2 2
var 0 2 5
var 0 2 3
var 0 2 4
row 1 1 0 1 3 1
row 1 1 1 1 2 1
sets 2
graph 4 0 3 0 2 1 0
vertex - 0 2
vertex 0 0 2
vertex 1 0 2
vertex - 0 2
arc 0 1 1 0
arc 0 2 1 1
arc 1 2 1 2
arc 2 1 1 3
arc 1 3 0 4
arc 2 3 0 5
end
forward 1 0 2 m 0 / 0 / none
forward 1 0 1 m 0 / 0 / 2 131072 2 m 1
backward 1 0 0 m 0 / 0 / none
backward 1 0 1 m 0 / 0 / 0 196608 0
join 1 0 1 m 0 / 2 / 2 0 1 m 1 / none
join 1 0 1 m 0 / 2 / 2 0 2 m 1 / 131072
join 1 0 1 m 0 / 2 / 2 0 2 m 0 1 / none
join 1 0 0 m 0 / 2 / 2 0 1 m 1 / 131072

# Two main resources, and a secondary one that is negative, with waiting in its windows.
vrpmodel 1
var 0 2 3
var 0 2 4
var 0 2 2
var 0 2 5
var 0 2 3
var 0 2 4
sets 2
graph 4 0 3 0 2 2 1
vertex - 0 3 0 4 -5 5
vertex 0 0 3 1 4 -5 -1
vertex 1 0 3 0 4 -3 5
vertex - 0 3 0 4 -5 5
arc 0 1 1 0 -1 0
arc 0 2 1 2 -2 1
arc 1 2 0 2 -1 2
arc 2 1 1 0 1 3
arc 1 3 0 1 2 4
arc 2 3 1 0 -1 5
end
sets 65536 0
paths 98304
fore 0 -98304 0 0 -5
fore 1 32768 1 1 -5 m 0
fore 2 163840 1 2 -3 m 1
fore 3 229376 1 2 -3
fore 3 425984 2 2 -4
back 3 0 3 4 5
back 1 131072 3 3 -1 m 0
back 2 262144 2 4 5 m 1
back 0 327680 2 3 0
back 0 524288 1 2 5
least 229376
forward 0 -98304 0 0 -5 / 0 / 1 32768 1 1 -5 m 0
forward 0 -98304 0 0 -5 / 1 / 2 163840 1 2 -3 m 1
forward 2 0 1 2 -3 m 1 / 0 / 1 262144 2 2 -2 m 0
backward 3 0 3 4 5 / 0 / 1 131072 3 3 -1 m 0
walk 0 2 5 / 425984
walk 1 3 4 / 622592
better 1 0 1 1 -5 m 0 / 1 0 1 1 -4 m 0 / yes
better 1 0 1 1 -4 m 0 / 1 0 1 1 -5 m 0 / no
better 1 0 1 2 -5 m 0 / 1 0 1 1 -5 m 0 / no
better_back 1 0 1 2 -5 m 0 / 1 0 1 1 -5 m 0 / yes

# The multiplier of the path count is taken at the source, and by no other label.
vrpmodel 1
var 0 2 3
var 0 2 4
var 0 2 2
var 0 2 5
var 0 2 3
var 0 2 4
row 1 1 0 1 3 1
row 1 1 1 1 2 1
sets 2
graph 4 0 3 0 2 1 0
vertex - 0 2
vertex 0 0 2
vertex 1 0 2
vertex - 0 2
arc 0 1 1 0
arc 0 2 1 1
arc 1 2 1 2
arc 2 1 1 3
arc 1 3 0 4
arc 2 3 0 5
end
paths 65536
fore 0 -65536 0
fore 1 131072 1 m 0
fore 2 196608 1 m 1
fore 3 327680 1
back 3 0 2
back 1 196608 2 m 0
back 2 262144 2 m 1
back 0 393216 1
walk 0 4 / 327680";
