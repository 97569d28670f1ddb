//! Whether a certificate proves its claim, and else its first fault.
#![tactic(auto)]

mod checking;
mod counts;
mod fault;
mod laws;
mod list;
mod moves;
mod place;
mod plan;
mod point;
mod proof;
mod stack;
mod tree;

pub use checking::check;
pub use fault::{CheckError, CheckFault, CheckKind};
pub use laws::first_faults;
