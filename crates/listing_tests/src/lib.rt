//! Tests of prefix trees: which are complete, which walks they list, and what a listing makes.
#![tactic(auto)]

#[cfg(test)]
mod blocks;
#[cfg(test)]
mod fits;
#[cfg(test)]
mod listings;
mod row;
#[cfg(test)]
mod rows;
#[cfg(test)]
mod trees;
