//! Tests of tables of labels over three small spaces.
#![tactic(auto)]

pub mod costs;
#[cfg(test)]
mod events;
#[cfg(test)]
mod ladder;
#[cfg(test)]
mod machine;
#[cfg(test)]
mod numbers;
#[cfg(test)]
mod tables;
