/// The most nodes of a certificate.
pub const MAX_NODES: usize = 1_000_000;
/// The most cuts of a proof.
pub const MAX_CUTS: usize = 64;
/// The most labels of each list of a table.
pub const MAX_LABELS: usize = 16_777_216;
/// The most steps of a prefix tree.
pub const MAX_STEPS: usize = 16_777_216;
