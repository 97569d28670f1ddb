/// The most arcs of a walk: 2^24.
pub const MAX_WALK_ARCS: usize = 16_777_216;
/// The most walks of a pool: their numbers are below 2^32 - 2.
pub const MAX_WALKS: usize = 4_294_967_294;
