//! The two texts of which most rows are edits.

/// A CVRP text with three customers.
pub const CVRP: &str = "NAME : small
COMMENT : (three customers, 3:4 of them)
TYPE : CVRP
DIMENSION : 4
EDGE_WEIGHT_TYPE : EUC_2D
CAPACITY : 10
NODE_COORD_SECTION
1 0 0
2 3 4
3 -6 8.0
4 0 -5
DEMAND_SECTION
1 0
2 4
3 0
4 7
DEPOT_SECTION
1
-1
EOF
";

/// A VRPTW text with three customers.
pub const VRPTW: &str = "C1

VEHICLE
NUMBER CAPACITY
3 200

CUSTOMER
CUST NO. XCOORD. YCOORD. DEMAND READY TIME DUE DATE SERVICE TIME

0 40 50 0 0 1000 0
1 45 68 10 900 960 90
2 -45 70 0 825 870 90
7 42 66 10 65 146 90
";
