//! The check of one proof at one place: its cuts and sides, and for each graph the roots, covers and least of its table.
//!
//! Of a checked proof it tells whether it closes the place, which arcs may be dropped, and the limit of a walk.
#![tactic(auto)]

mod bound;
mod check;
mod checked;
mod cover;
mod dominance;
mod error;
mod fix;
mod index;
mod laws;
mod lists;
mod near;
mod proved;
mod root;
mod side;
mod sink;
mod way;

pub use bound::{closes_place, limit_at};
pub use check::check_proof;
pub use checked::Checked;
pub use error::ProofError;
pub use fix::is_fixed;
pub use index::label_index;
pub use laws::demands_are_the_proof;
pub use lists::back_labels;
pub use near::near_of;
pub use proved::Proved;
