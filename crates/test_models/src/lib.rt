//! Texts of models for tests, edits of texts, and tables that are texts.
#![tactic(auto)]

pub mod blocks;
pub mod edits;
pub mod texts;
