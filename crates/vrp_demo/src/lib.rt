//! Models made from a seed and a size, to try a solver on.
#![tactic(auto)]

mod arcs;
mod draws;
mod generator;
mod network;
mod rows;
mod stops;

pub use generator::make_model;
