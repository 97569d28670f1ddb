//! What a valid certificate is, and that it proves its claim.
//!
//! Each law is the contract of a function that does nothing else, so that it is proved with the crate.
#![tactic(auto)]

mod counts;
mod open;
mod places;
mod prefixes;
mod valid;

pub use counts::{counts_have_plans, plans_have_counts};
pub use open::{
    filled_tables_are_walls, list_walls_show_walks, open_values_bound_solutions,
    rounding_keeps_bounds, table_walls_show_walks, walls_bound_solutions,
};
pub use places::{labels_cost_as_reduced, proofs_bound_places, walks_are_admitted};
pub use prefixes::{
    complete_trees_list_walks, nodes_have_one_prefix, prefixes_go_on, prefixes_have_labels,
    trees_grow, trees_have_partial_walks, trees_have_walks,
};
pub use valid::{
    nodes_are_in_preorder, nodes_keep_cheap_plans, numbers_may_fall, plans_below_stay_open,
    valid_certificates_hold,
};
