//! A model, and a certificate of it whose one fix drops three arcs.

/// The model: two customers, of which each path may visit both.
pub const MODEL: &str = "vrpmodel 1
var 0 2 3
var 0 2 4
var 0 2 2
var 0 2 5
var 0 2 3
var 0 2 4
row 1 1 0 1 3 1
row 1 1 1 1 2 1
sets 2
graph 4 0 3 0 2 1 0
vertex - 0 2
vertex 0 0 2
vertex 1 0 2
vertex - 0 2
arc 0 1 1 0
arc 0 2 1 1
arc 1 2 1 2
arc 2 1 1 3
arc 1 3 0 4
arc 2 3 0 5
end
";

/// With both row multipliers at 5 the terms are 10 and the least is -1, so the bound is 8, and the limit of a walk against 9 is
/// 8 - 10 + 1 = -1, all at the scale of 65,536.
pub const CERTIFICATE: &str = "optimal 9
path 0 1 0 2 5
proof 1
fix
mult row 0 327680
mult row 1 327680
table 0 both -65536
fore 0 0 0
fore 1 -131072 1 m 0
fore 2 -65536 1 m 1
fore 2 -327680 2 m 1
fore 3 65536 1
fore 3 -65536 2
back 3 0 2
back 1 196608 2 m 0
back 2 262144 2 m 1
back 1 65536 1 m 0
back 2 196608 1 m 1
back 2 65536 0 m 1
back 1 0 0 m 0
back 0 65536 1
back 0 -65536 0
drop 0 1 3 4
close
mult row 0 262144
mult row 1 327680
table 0 full 0
fore 0 0 0
fore 1 -65536 1 m 0
fore 2 -262144 2 m 1
fore 3 0 2
end
";

/// What is said of a place, and the arcs that may be dropped there against 9: those that are shut already are none of them.
pub const PLACES: &str = "| 1 3 4
drop 1 | 3 4
drop 3 | 1 4";
