/// The most variables of a model.
pub const MAX_VARS: usize = 30_000;
/// The most rows of a model.
pub const MAX_ROWS: usize = 5_000;
/// The most terms of all rows.
pub const MAX_TERMS: usize = 1_000_000;
/// The most graphs of a model.
pub const MAX_GRAPHS: usize = 64;
/// The most arcs of all graphs.
pub const MAX_ALL_ARCS: u64 = 100_000;
/// The most variables that an arc maps.
pub const MAX_MAPPED: usize = 16;
/// The greatest value of a variable.
pub const MAX_VALUE: i64 = 1_000_000;
/// How far the cost of a variable may be from 0.
pub const MAX_COST: u64 = 1_000_000_000;
/// How far a coefficient may be from 0.
pub const MAX_COEF: u64 = 1_000_000;
/// How far the side of a row may be from 0.
pub const MAX_SIDE: u64 = 1_000_000_000_000;
/// The most that the absolute coefficients of a variable sum to, over all rows.
pub const MAX_COEF_SUM: u64 = 1_048_576;
/// The most that absolute cost × high sums to, over the variables: 2^40.
pub const MAX_COST_RANGE: u128 = 1_099_511_627_776;
/// How many units of a multiplier, a term or a reduced cost are one unit of cost.
pub const SCALE: i64 = 65_536;
/// How far a multiplier may be from 0: 2^48.
pub const MAX_MULT: u64 = 281_474_976_710_656;
