//! Tests of the check of one proof at one place, and of fixing: each call is run on the certificate of a model.
#![tactic(auto)]

#[cfg(test)]
mod fixing;
#[cfg(test)]
mod keeping;
#[cfg(test)]
mod rows;
