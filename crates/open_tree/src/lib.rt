//! A proof tree with open places, as the list of its slots in preorder.
#![tactic(auto)]

mod laws;
mod pruning;
mod putting;
mod slots;
#[cfg(test)]
mod tests;

pub use laws::{
    Sought, TreeRules, closed_trees_are_whole, open_places_give_way, open_places_have_the_rest,
    pruned_trees_are_trees, rules_may_allow_more,
};
pub use pruning::{Tested, prune};
pub use putting::put;
pub use slots::{Slot, first_open, made_count, made_nodes};
