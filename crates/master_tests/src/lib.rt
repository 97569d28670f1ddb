//! Tests of linear programs over columns: a table of rows.
#![tactic(auto)]

#[cfg(test)]
mod masters;
#[cfg(test)]
mod rows;
#[cfg(test)]
mod said;
