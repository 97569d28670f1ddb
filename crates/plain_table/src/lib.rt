//! The table of labels that one thread fills.
//!
//! From the root on, each kept label is extended over each of its choices, and of the labels of a
//! cell those that another one dominates are taken away, until nothing is left to extend or the
//! table has as many entries as it may.
#![tactic(auto)]

mod filling;
mod steps;
mod table;

pub use table::{Filled, fill};
