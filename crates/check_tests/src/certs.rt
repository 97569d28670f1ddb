//! Texts of certificates, and of two models.

/// A plan of cost 9 in the model with packing sets.
pub const OPTIMAL: &str = "optimal 9
path 0 1 0 2 5
proof 1
close
mult row 0 262144
mult row 1 327680
table 0 full 0
fore 0 0 0
fore 1 -65536 1 m 0
fore 2 -65536 1 m 1
fore 2 -262144 2 m 1
fore 3 131072 1
fore 3 0 2
end
";

/// A certificate of the model with three customers, with a cut.
pub const WITH_CUT: &str = "optimal 4
path 0 1 0 3 10
path 0 1 2 11
proof 1
close
mult var 0 131072
mult var 1 131072
mult var 2 131072
cut 2 131072 3 0 1 1 1 2 1 0 1 2
table 0 full 0
fore 0 0 0 s 0
fore 1 0 1 m 0 s 1
fore 2 0 1 m 1 s 1
fore 3 0 1 m 2 s 1
fore 1 0 2 m 0 s 0
fore 2 0 2 m 1 s 0
fore 3 0 2 m 2 s 0
fore 4 0 1 s 1
fore 4 0 2 s 0
end
";

/// No solution where paths have at most one step.
pub const INFEASIBLE: &str = "infeasible
proof 1
close
mult row 0 2424832
mult row 1 2424832
table 0 full -2031616
fore 0 0 0
fore 1 -2228224 1 m 0
fore 2 -2162688 1 m 1
fore 3 -2031616 1
end
";

/// A split whose parts are closed alike.
pub const SPLIT: &str = "optimal 9
path 0 1 0 2 5
proof 1
split var 0 0
close
mult row 0 262144
mult row 1 327680
table 0 full 0
fore 0 0 0
fore 1 -65536 1 m 0
fore 2 -65536 1 m 1
fore 2 -262144 2 m 1
fore 3 131072 1
fore 3 0 2
close
mult row 0 262144
mult row 1 327680
table 0 full 0
fore 0 0 0
fore 1 -65536 1 m 0
fore 2 -65536 1 m 1
fore 2 -262144 2 m 1
fore 3 131072 1
fore 3 0 2
end
";

/// No solution where paths have at most one step, by two walks.
pub const LISTED: &str = "infeasible
proof 1
list
table 0 both 393216
fore 0 0 0
fore 1 196608 1 m 0
fore 2 262144 1 m 1
fore 3 393216 1
back 3 0 1
back 1 196608 1 m 0
back 2 262144 1 m 1
back 0 393216 0
tree 0
pre 0 0
pre 0 1
pre 1 4
pre 2 5
cclose
mult row 0 2424832
mult row 1 2424832
mult paths 0 -1900544
end
";

/// A half table.
pub const HALVES: &str = "optimal 9
path 0 1 0 2 5
proof 1
close
mult row 0 262144
mult row 1 327680
table 0 half 1 0
fore 0 0 0
fore 1 -65536 1 m 0
fore 2 -65536 1 m 1
back 3 0 2
back 1 196608 2 m 0
back 2 262144 2 m 1
end
";

/// A fix before the close.
pub const FIXED: &str = "optimal 9
path 0 1 0 2 5
proof 1
fix
mult row 0 327680
mult row 1 327680
table 0 both -65536
fore 0 0 0
fore 1 -131072 1 m 0
fore 2 -65536 1 m 1
fore 2 -327680 2 m 1
fore 3 65536 1
fore 3 -65536 2
back 3 0 2
back 1 196608 2 m 0
back 2 262144 2 m 1
back 1 65536 1 m 0
back 2 196608 1 m 1
back 2 65536 0 m 1
back 1 0 0 m 0
back 0 65536 1
back 0 -65536 0
drop 0 1 3 4
close
mult row 0 262144
mult row 1 327680
table 0 full 0
fore 0 0 0
fore 1 -65536 1 m 0
fore 2 -262144 2 m 1
fore 3 0 2
end
";

/// A list of the walks that cost less than 9.
pub const LISTED_BELOW_NINE: &str = "optimal 9
path 0 1 0 2 5
proof 1
list
table 0 both 393216
fore 0 0 0
fore 1 196608 1 m 0
fore 2 262144 1 m 1
fore 2 327680 2 m 1
fore 1 589824 2 m 0
fore 3 393216 1
back 3 0 2
back 1 196608 2 m 0
back 2 262144 2 m 1
back 2 524288 1 m 1
back 1 393216 1 m 0
back 0 393216 1
tree 0
pre 0 0
pre 0 1
pre 1 4
pre 2 5
csplit 0 0
csplit 1 0
point
cclose
mult row 0 655360
cclose
mult row 1 196608
end
";

/// A plan of cost 12, and a list of the walks that cost less.
pub const LISTED_BELOW_TWELVE: &str = "optimal 12
path 0 1 1 3 4
proof 1
list
table 0 both 393216
fore 0 0 0
fore 1 196608 1 m 0
fore 2 262144 1 m 1
fore 2 327680 2 m 1
fore 1 589824 2 m 0
fore 3 393216 1
back 3 0 2
back 1 196608 2 m 0
back 2 262144 2 m 1
back 2 524288 1 m 1
back 1 393216 1 m 0
back 0 393216 1
tree 0
pre 0 0
pre 0 1
pre 1 2
pre 1 4
pre 2 5
pre 3 5
csplit 0 0
csplit 1 0
point
cclose
mult row 0 655360
cclose
mult row 1 196608
end
";

/// Two graphs with one walk each, of costs 5 and 2; both are asked.
pub const TWO_GRAPHS: &str = "vrpmodel 1
var 1 1 5
var 0 1 2
row 2 2 0 1 1 1
graph 2 0 1 0 1 1 0
vertex - 0 1
vertex - 0 1
arc 0 1 1 0
graph 2 0 1 0 1 1 0
vertex - 0 1
vertex - 0 1
arc 0 1 1 1
end
";

/// Its plan and a list.
pub const TWO_TREES: &str = "optimal 7
path 0 1 0
path 1 1 0
proof 1
list
table 0 both 327680
fore 0 0 0
fore 1 327680 1
back 1 0 1
back 0 327680 0
table 1 both 131072
fore 0 0 0
fore 1 131072 1
back 1 0 1
back 0 131072 0
tree 0
pre 0 0
tree 1
pre 0 0
cclose
mult row 0 327680
end
";

/// A graph whose sink is not reached within the windows.
pub const UNREACHED: &str = "vrpmodel 1
var 1 1 2
graph 3 0 2 0 1 1 0
vertex - 0 1
vertex - 0 1
vertex - 0 1
arc 0 1 1 0
arc 1 2 1 0
end
";

/// A certificate of it.
pub const NO_WALKS: &str = "infeasible
proof 1
close
table 0 full none
fore 0 0 0
fore 1 131072 1
end
";
