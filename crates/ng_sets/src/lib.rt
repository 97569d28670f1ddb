//! Lists of packing sets that are near a vertex, and the memory of a walk that forgets what is not near.
#![tactic(auto)]

mod memory;
mod near;
mod widening;

pub use memory::visit;
pub use near::Near;
pub use widening::widen;
