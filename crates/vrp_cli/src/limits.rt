/// The most bytes of an input.
pub const MAX_INPUT: u32 = 67_108_864;
