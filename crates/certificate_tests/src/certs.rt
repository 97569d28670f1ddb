//! Texts of certificates, and a model with two graphs.

/// A certificate of the text with packing sets: a plan of cost 9, which no solution is below.
pub const OPTIMAL: &str = "optimal 9
path 0 1 0 2 5
proof 1
close
mult row 0 262144
mult row 1 327680
table 0 full 0
fore 0 0 0
fore 1 -65536 1 m 0
fore 2 -65536 1 m 1
fore 2 -262144 2 m 1
fore 3 131072 1
fore 3 0 2
end
";

/// A certificate of the text with three customers, with a cut.
pub const WITH_CUT: &str = "optimal 4
path 0 1 0 3 10
path 0 1 2 11
proof 1
close
mult var 0 131072
mult var 1 131072
mult var 2 131072
cut 2 131072 3 0 1 1 1 2 1 0 1 2
table 0 full 0
fore 0 0 0 s 0
fore 1 0 1 m 0 s 1
fore 2 0 1 m 1 s 1
fore 3 0 1 m 2 s 1
fore 1 0 2 m 0 s 0
fore 2 0 2 m 1 s 0
fore 3 0 2 m 2 s 0
fore 4 0 1 s 1
fore 4 0 2 s 0
end
";

/// A certificate that the text with packing sets has no solution where one path of one step is allowed.
pub const INFEASIBLE: &str = "infeasible
proof 1
close
mult row 0 2424832
mult row 1 2424832
table 0 full -2031616
fore 0 0 0
fore 1 -2228224 1 m 0
fore 2 -2162688 1 m 1
fore 3 -2031616 1
end
";

/// The first certificate, by a split.
pub const SPLIT: &str = "optimal 9
path 0 1 0 2 5
proof 1
split var 0 0
close
mult row 0 262144
mult row 1 327680
table 0 full 0
fore 0 0 0
fore 1 -65536 1 m 0
fore 2 -65536 1 m 1
fore 2 -262144 2 m 1
fore 3 131072 1
fore 3 0 2
close
mult row 0 262144
mult row 1 327680
table 0 full 0
fore 0 0 0
fore 1 -65536 1 m 0
fore 2 -65536 1 m 1
fore 2 -262144 2 m 1
fore 3 131072 1
fore 3 0 2
end
";

/// A certificate that there is no solution, by the list of all walks.
pub const LISTED: &str = "infeasible
proof 1
list
table 0 both 393216
fore 0 0 0
fore 1 196608 1 m 0
fore 2 262144 1 m 1
fore 3 393216 1
back 3 0 1
back 1 196608 1 m 0
back 2 262144 1 m 1
back 0 393216 0
tree 0
pre 0 0
pre 0 1
pre 1 4
pre 2 5
cclose
mult row 0 2424832
mult row 1 2424832
mult paths 0 -1900544
end
";

/// The first certificate, by a half pair.
pub const HALVES: &str = "optimal 9
path 0 1 0 2 5
proof 1
close
mult row 0 262144
mult row 1 327680
table 0 half 1 0
fore 0 0 0
fore 1 -65536 1 m 0
fore 2 -65536 1 m 1
back 3 0 2
back 1 196608 2 m 0
back 2 262144 2 m 1
end
";

/// The first certificate, where dropped arcs come first.
pub const FIXED: &str = "optimal 9
path 0 1 0 2 5
proof 1
fix
mult row 0 327680
mult row 1 327680
table 0 both -65536
fore 0 0 0
fore 1 -131072 1 m 0
fore 2 -65536 1 m 1
fore 2 -327680 2 m 1
fore 3 65536 1
fore 3 -65536 2
back 3 0 2
back 1 196608 2 m 0
back 2 262144 2 m 1
back 1 65536 1 m 0
back 2 196608 1 m 1
back 2 65536 0 m 1
back 1 0 0 m 0
back 0 65536 1
back 0 -65536 0
drop 0 1 3 4
close
mult row 0 262144
mult row 1 327680
table 0 full 0
fore 0 0 0
fore 1 -65536 1 m 0
fore 2 -262144 2 m 1
fore 3 0 2
end
";

/// Lines of every kind, for the text with packing sets. It proves nothing.
pub const EVERY_LINE: &str = "optimal 9
path 0 1 0 2 5
path 0 2 1 5
proof 1
split var 3 -1
split paths 0 2
fix
mult var 0 -5
mult var 5 281474976710656
mult row 0 262144
mult row 1 -327680
mult set 1 7
mult paths 0 -3
cut 2 131072 2 0 1 1 1 0 1
cut 3 0 1 1 2
near 0 1 0 1
near 0 2
table 0 both -5192296858534827628530496329220096
fore 0 0 0 s 0 0
fore 2 -65536 2 m 0 1 s 1 255
back 3 5192296858534827628530496329220096 -2147483648 m 1 s 0 2
back 1 0 2147483647 s 1 1
drop 0 1 3 3
list
table 0 half 1 none
fore 0 0 0
back 3 0 2 m 1
tree 0
pre 0 1
pre 1 5
csplit 4 0
cclose
mult var 2 4
mult paths 0 -1
point
close
table 0 full none
end
";

/// Two graphs: one with two main resources and a secondary one, and one whose sink is its first vertex.
pub const TWO_GRAPHS: &str = "vrpmodel 1
var 0 1 2
var 1 3 -7
row * 4 0 -1 1 3
sets 3
graph 3 0 2 0 4 2 1
vertex - 0 5 0 9 -3 3
vertex 2 1 5 2 9 -3 3
vertex - 0 5 0 9 -3 3
arc 0 1 1 0 -2 0 1
arc 1 2 0 1 2
arc 0 2 0 0 0 0
graph 2 1 0 1 1 1 0
vertex - 0 1
vertex - 0 1
arc 1 0 1 1
end
";

/// Lines of a certificate for the two graphs. It proves nothing.
pub const LINES_OF_TWO: &str = "infeasible
proof 1
fix
mult var 1 1
mult row 0 -1
mult set 2 5
mult paths 1 6
near 0 0 2
near 0 2
near 1 0 0 1 2
table 0 full 3
fore 1 4 1 2 -3 m 2
fore 0 -4 -1 0 3
table 1 half -2147483648 none
back 0 0 1
drop 0 0 1
drop 1 0
drop 0 2 2
list
tree 1
pre 0 0
tree 0
pre 0 2
end
";
