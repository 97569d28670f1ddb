//! Tests of column generation.
#![tactic(auto)]

#[cfg(test)]
mod found;
#[cfg(test)]
mod widening;
