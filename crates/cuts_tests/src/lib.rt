//! Tests of sets of packing sets, rank-1 cuts and ng-sets: tables of rows.
#![tactic(auto)]

#[cfg(test)]
mod cuts;
#[cfg(test)]
mod near;
#[cfg(test)]
mod sets;
