//! Tests of the solver. The answers are worked out by hand.
#![tactic(auto)]

#[cfg(test)]
mod four;
#[cfg(test)]
mod rows;
#[cfg(test)]
mod search;
#[cfg(test)]
mod sets;
