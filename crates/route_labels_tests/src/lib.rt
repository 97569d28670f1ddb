//! Tests of labels forward and backward, of their tables and of joins: tables of rows.
#![tactic(auto)]

#[cfg(test)]
mod blocks;
#[cfg(test)]
mod joined;
#[cfg(test)]
mod labels;
#[cfg(test)]
mod rows;
#[cfg(test)]
mod steps;
#[cfg(test)]
mod tables;
