//! Tests of graphs, models, plans and lists: tables of rows.
#![tactic(auto)]

#[cfg(test)]
mod calls;
#[cfg(test)]
mod paths;
#[cfg(test)]
mod plans;
