//! Limits of the answer and of what is used.

/// The greatest magnitude of a multiplier: 2^48, in units of 1/65,536 of a unit of cost.
pub const MAX_MULTIPLIER: i64 = 281_474_976_710_656;
/// The greatest weight: 2^40, in units of 1/65,536.
pub const MAX_WEIGHT: i64 = 1_099_511_627_776;
/// The greatest magnitude of an entry of a column that is used: 2^20.
pub const MAX_ENTRY: i64 = 1_048_576;
/// The greatest magnitude of the cost of a column that is used, and the greatest penalty: 2^26.
pub const MAX_USED_COST: i64 = 67_108_864;
/// The most working rows.
pub const MAX_WORKING_ROWS: usize = 1_000;
