//! Tests of the generator of models.
#![tactic(auto)]

#[cfg(test)]
mod made;
