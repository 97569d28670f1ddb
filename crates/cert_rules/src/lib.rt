//! What the certificate of a text says in the words of the rules of proofs.
//!
//! It has definitions alone, which the checker, the lists of walks and the solver cite.
#![tactic(auto)]

mod words;

pub use words::proofs_have_leasts;
