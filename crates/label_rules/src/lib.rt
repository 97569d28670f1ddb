//! Labels of partial walks and of rests, and the laws that every bound on walks stands on.
//!
//! Each law is the contract of a function that does nothing else, so that it is proved with the crate.
#![tactic(auto)]

mod costs;
mod dominance;
mod joins;
mod label;
mod leasts;
mod memories;
mod spaces;
mod table;
mod tables;
mod walks;

pub use costs::labels_cost_as_walks;
pub use dominance::{dominance_is_an_order, dominators_join, extensions_keep_dominance};
pub use joins::{joins_cost_as_walks, walks_are_cut_anywhere};
pub use label::Label;
pub use leasts::{arcs_above_are_unused, arcs_have_joins, leasts_are_at_most, tables_cover};
pub use memories::memories_meet;
pub use spaces::{labels_are_lawful, levels_rise, tests_are_exact};
pub use table::{Form, ProofTable};
pub use tables::{covers_have_labels, half_pairs_represent};
pub use walks::{admitted_walks_have_labels, elementary_walks_are_admitted};
