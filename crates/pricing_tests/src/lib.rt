//! Tests of the tables of every graph, of their cheap walks, and of walks from joins: a table of rows.
#![tactic(auto)]

#[cfg(test)]
mod blocks;
#[cfg(test)]
mod expected;
#[cfg(test)]
mod found;
pub mod parts;
#[cfg(test)]
mod rows;
